// The rows of the states over an effect, the packets that are due, and 16.
#![tactic(auto)]

ghost use Rattle.std.specs.Prelude.{◌≡◌, ◌≤◌, List, ℕ, length, option_map, IfOk};
ghost use Rattle.wire.specs.View.{judged_by};
ghost use Rattle.engine_value.specs.declared.Engine as engine;
ghost use Rattle.event.specs.View.{event_view};
ghost use Rattle.packets.specs.Packets.{joined};
ghost use Rattle.adhesion.specs.View.{constraints_view};
ghost use Rattle.call.specs.Call.{status_in, rows_shown, judge};
ghost use Rattle.event_packets.specs.View.{status_view, packets_view};
ghost use Rattle.effects.specs.View.{effect_view, Beside};
ghost use Rattle.judge.specs.View.{status_of, step_view};

use adhesion::Constraints;
use effects::Effect;
use engine_value::{Control, Traction, Train};
use event::Event;
use event_packets::{Status, Writes};
use look_up::Occurrence;
use status_word::OperationalConditions;
use wire::Refusal;

// An effect, and beside it the control group after the event, what is remembered of the traction requests, the rows of slippery rail that are shown from now
// on where it alters them, what the event writes, and in how many bytes.
#[derive(Clone, Copy)]
pub struct Judgement<'a> {
    pub effect: Effect<'a>,
    pub control: Control,
    pub traction: Traction,
    pub shown: Option<Constraints<'a>>,
    pub writes: Writes<'a>,
    pub size: usize,
}

fn status(control: Control, train: Train, conditions: OperationalConditions) -> Status
    ensures { result ≡ status_of control train conditions }
{
    Status {
        state: control.state,
        conditions,
        speed: train.position.speed,
    }
}

// State, conditions and speed before the event.
#[tactic(auto, unfolding(call::specs::Call::conditions_in, conditions::specs::Conditions::conditions))]
fn status_in(o: &Occurrence) -> Status
    ensures { status_view result ≡ status_in o.now.engine.now }
{
    let e = o.engine;
    let conditions = conditions::conditions_of(
        e.load,
        e.inputs.reports,
        o.looked.before,
        e.progress,
    );
    status(e.control, e.train, conditions)
}

// The rows that are shown from an event on that alters them: none after power off.
fn rows_shown<'a>(v: Event<'a>) -> Option<Constraints<'a>>
    ensures { option_map constraints_view result ≡ rows_shown (event_view v.entry) }
{
    match v {
        Event::PowerOff => Some(Constraints::none()),
        _ => v.constraints(),
    }
}

// The effect of an event, judged; `room` are the bytes of the output memory.
pub fn judge<'a>(
    o: &Occurrence<'_, 'a>,
    f: &Effect<'a>,
    room: usize,
) -> Result<Judgement<'a>, Refusal>
    ensures step { (memory : List ℕ) → room ≡ length memory → Beside o.now.engine.now f.now → judged_by (step_view o.now.engine.now) result ≡ judge o.now.engine.now (event_view o.now.event) memory (effect_view f.now) }
    ensures size { IfOk result (λ t. (m : engine.Engine) → t.size ≡ length (joined (packets_view m t.writes))) }
    ensures fits { IfOk result (λ t. t.size ≤ room) }
{
    let e = o.engine;
    let v = o.event;
    let conditions = conditions::conditions_of(
        f.journey.load(e),
        f.inputs.reports,
        f.after,
        f.progress,
    );
    let control = states::control_after(
        f.inputs,
        f.control,
        v,
        f.changes.last.is_some(),
        conditions,
    );
    let due = event_packets::status_due(status_in(o), status(control, f.train, conditions));
    let state = e.control.state;
    let traction = traction::traction_after(state, v, control.state, e.traction);
    let shown = rows_shown(v);
    let writes = Writes {
        received: f.received,
        told: f.told,
        changes: f.changes,
        requested: traction::content_written(state, v, e.traction, traction),
        constraints: v.constraints(),
        status: due.then_some(conditions),
    };
    let size = event_packets::size(&writes);
    if room < size {
        return Err(Refusal::Output);
    }
    Ok(Judgement {
        effect: *f,
        control,
        traction,
        shown,
        writes,
        size,
    })
}
