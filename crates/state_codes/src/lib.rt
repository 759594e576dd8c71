// The states, the ETCS mode and the lever by their codes, and rows 3 to 6 of the table of numbers, which go by state and kind.
#![tactic(auto)]

ghost use Rattle.std.specs.Prelude.{◌≡◌};
ghost use Rattle.wire.specs.View.{judged};
ghost use Rattle.state_codes.specs.Codes.{code, state_at, mode_at, lever_at};
ghost use Rattle.state_codes.specs.Numbers.{power_rows, state_row, state_rows};

use event::EventKind;
use wire::Refusal;

// The states of document 01, by their codes 0 to 7 in this order.
#[derive(Clone, Copy, PartialEq, Eq)]
pub enum State {
    NP = 0,
    CO = 1,
    NA = 2,
    AV = 3,
    RE = 4,
    EG = 5,
    DE = 6,
    FA = 7,
}

// The ETCS mode: 0 other, 1 AD.
#[derive(Clone, Copy, PartialEq, Eq)]
pub enum EtcsMode {
    Other,
    AD,
}

// The lever: 0 neutral, 1 traction, 2 brake.
#[derive(Clone, Copy, PartialEq, Eq)]
pub enum DriverLever {
    Neutral,
    Traction,
    Brake,
}

// ---- codes

impl From<State> for u8 {
    ghost from_gives = { λ s n. n ≡ code s };

    fn from(s: State) -> u8 {
        s as u8
    }
}

impl From<u8> for State {
    ghost from_gives = { λ n s. s ≡ state_at n };

    fn from(code: u8) -> State {
        match code {
            0 => State::NP,
            1 => State::CO,
            2 => State::NA,
            3 => State::AV,
            4 => State::RE,
            5 => State::EG,
            6 => State::DE,
            _ => State::FA,
        }
    }
}

impl From<u8> for EtcsMode {
    ghost from_gives = { λ n m. m ≡ mode_at n };

    fn from(n: u8) -> EtcsMode {
        if n == 1 {
            EtcsMode::AD
        } else {
            EtcsMode::Other
        }
    }
}

impl From<u8> for DriverLever {
    ghost from_gives = { λ n l. l ≡ lever_at n };

    fn from(n: u8) -> DriverLever {
        match n {
            0 => DriverLever::Neutral,
            1 => DriverLever::Traction,
            _ => DriverLever::Brake,
        }
    }
}

// ---- the places "power" and "state" of the table of numbers

// By numbers: the rows answer of every number, also of one that is no kind's.
const POWER_ON: u8 = EventKind::PowerOn as u8;

const CONFIGURED: u8 = EventKind::Configured as u8;

const POWER_OFF: u8 = EventKind::PowerOff as u8;

const PRESS: u8 = EventKind::Press as u8;

#[tactic(auto, unfolding(crate::specs::Numbers::power_rows))]
fn power_rows(s: State, kind: u8) -> Result<(), Refusal>
    ensures { judged result ≡ power_rows s kind }
{
    match (s, kind) {
        (State::NP, POWER_ON) => Ok(()),
        (State::NP, _) => Err(Refusal::NoPower),
        (_, POWER_ON) => Err(Refusal::Powered),
        (State::FA, POWER_OFF) => Ok(()),
        (State::FA, _) => Err(Refusal::Fault),
        _ => Ok(()),
    }
}

#[tactic(auto, unfolding(crate::specs::Numbers::state_row))]
fn state_row(s: State, kind: u8) -> Result<(), Refusal>
    ensures { judged result ≡ state_row s kind }
{
    match (s, kind) {
        (State::CO, CONFIGURED) => Ok(()),
        (_, CONFIGURED) => Err(Refusal::State),
        (State::RE, PRESS) => Ok(()),
        (_, PRESS) => Err(Refusal::State),
        _ => Ok(()),
    }
}

// Both places, one after the other.
#[tactic(auto, unfolding(crate::specs::Numbers::state_rows))]
pub fn state_rows(s: State, kind: u8) -> Result<(), Refusal>
    ensures { judged result ≡ state_rows s kind }
{
    power_rows(s, kind)?;
    state_row(s, kind)
}
