// The rows of the states, the AD request, and the control group after an event.
#![tactic(auto)]

ghost use Rattle.std.specs.Prelude.{◌≡◌, false, not, ◌&&◌, ◌||◌};
ghost use Rattle.state_codes.specs.Codes.{is_ad, is_brake};
ghost use Rattle.event.specs.View.{event_view};
ghost use Rattle.states.specs.States.{machine, N, U, from_re, from_eg, from_de, by_state, machine_after, wanted, given};
ghost use Rattle.states.specs.ControlGroup.{values_in, machine_in, control_after};

use engine_value::{Control, Inputs};
use event::Event;
use state_codes::{DriverLever, EtcsMode, State};
use status_word::OperationalConditions;

// What the rows look at, after an event: O, all nine conditions; T, the train conditions; the lever and the mode.
#[derive(Clone, Copy)]
pub struct Values {
    pub O: bool,
    pub T: bool,
    pub lever: DriverLever,
    pub mode: EtcsMode,
}

// The state, and whether a press is pending.
#[derive(Clone, Copy)]
pub struct Machine {
    pub state: State,
    pub press: bool,
}

// ---- the rows of the states

// U of document 01: the state that the values alone give.
fn u(v: Values) -> State
    ensures { result ≡ U v }
{
    if !v.O {
        State::NA
    } else if v.T && v.lever == DriverLever::Neutral && v.mode == EtcsMode::Other {
        State::RE
    } else {
        State::AV
    }
}

// A press pending, O, T, N and AD.
fn engages(press: bool, v: Values) -> bool
    ensures { result ≡ (press && (v.O && (v.T && (N v && is_ad v.mode)))) }
{
    press && v.O && v.T && ad_neutral(v)
}

fn at_rest(s: State) -> Machine
    ensures { result ≡ machine s false }
{
    Machine {
        state: s,
        press: false,
    }
}

fn from_re(press: bool, v: Values) -> Machine
    ensures { result ≡ from_re press v }
{
    if engages(press, v) {
        return at_rest(State::EG);
    }
    let state = u(v);
    Machine {
        state,
        press: press && state == State::RE,
    }
}

// The lever at brake, mode other, or a point reached.
fn leaves(reached: bool, v: Values) -> bool
    ensures { result ≡ (is_brake v.lever || (not (is_ad v.mode) || reached)) }
{
    v.lever == DriverLever::Brake || v.mode != EtcsMode::AD || reached
}

fn from_eg(reached: bool, v: Values) -> State
    ensures { result ≡ from_eg reached v }
{
    if leaves(reached, v) {
        u(v)
    } else if v.O && v.T {
        State::EG
    } else {
        State::DE
    }
}

fn from_de(v: Values) -> State
    ensures { result ≡ from_de v }
{
    if leaves(false, v) { u(v) } else { State::DE }
}

// The row of the state before, for an event with no row of its own.
fn by_state(s: State, press: bool, reached: bool, v: Values) -> Machine
    ensures { result ≡ by_state s press reached v }
{
    match s {
        State::NP | State::CO | State::FA => at_rest(s),
        State::NA | State::AV => at_rest(u(v)),
        State::RE => from_re(press, v),
        State::EG => at_rest(from_eg(reached, v)),
        State::DE => at_rest(from_de(v)),
    }
}

// State and press after an event.
#[tactic(auto, unfolding(crate::specs::States::machine_after))]
fn machine_after(m: Machine, event: Event, reached: bool, v: Values) -> Machine
    ensures { result ≡ machine_after m (event_view event.entry) reached v }
{
    let s = m.state;
    match event {
        Event::PowerOn => at_rest(State::CO),
        Event::Configured => at_rest(u(v)),
        Event::PowerOff => at_rest(State::NP),
        Event::Fault => at_rest(State::FA),
        Event::Press => by_state(s, true, reached, v),
        _ => by_state(s, m.press, reached, v),
    }
}

// ---- the AD request

fn ad_neutral(v: Values) -> bool
    ensures { result ≡ (is_ad v.mode && N v) }
{
    v.mode == EtcsMode::AD && v.lever == DriverLever::Neutral
}

fn wanted(s: State, v: Values) -> bool
    ensures { result ≡ wanted s v }
{
    match s {
        State::NP | State::CO | State::NA | State::FA => false,
        State::AV => ad_neutral(v),
        State::RE | State::EG | State::DE => true,
    }
}

fn given(s: State, v: Values, before: bool) -> bool
    ensures { result ≡ given s v before }
{
    wanted(s, v) && (before || v.mode != EtcsMode::AD)
}

// ---- the control group

fn values_in(inputs: Inputs, conditions: OperationalConditions) -> Values
    ensures { result ≡ values_in inputs conditions }
{
    Values {
        O: conditions.all_nine(),
        T: wire::bit(inputs.reports, 4),
        lever: DriverLever::from(inputs.lever),
        mode: EtcsMode::from(inputs.mode),
    }
}

impl From<Control> for Machine {
    ghost from_gives = { λ c m. m ≡ machine_in c };

    fn from(c: Control) -> Machine {
        Machine {
            state: State::from(c.state),
            press: c.press,
        }
    }
}

// The control group after an event, from the inputs with those of the event already in them;
// `reached`: a point became reached in this event; `conditions`: those after it.
#[tactic(auto, unfolding(crate::specs::ControlGroup::control_after))]
pub fn control_after(
    inputs: Inputs,
    c: Control,
    event: Event,
    reached: bool,
    conditions: OperationalConditions,
) -> Control
    ensures { result ≡ control_after inputs c (event_view event.entry) reached conditions }
{
    let v = values_in(inputs, conditions);
    let m = machine_after(Machine::from(c), event, reached, v);
    Control {
        state: u8::from(m.state),
        press: m.press,
        request: given(m.state, v, c.request),
    }
}
