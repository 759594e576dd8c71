// Held at a stop: the held stop that is reached, row 20, and the stop whose hold a load ends.
#![tactic(auto)]

ghost use Rattle.std.specs.Prelude.{◌≡◌};
ghost use Rattle.wire.specs.View.{judged};
ghost use Rattle.engine_value.specs.View.{route_view};
ghost use Rattle.event.specs.View.{kind_number};
ghost use Rattle.hold.specs.Hold.{held_stop_in, hold_row, rows_of_state, keeps_hold, hold_ended};

use engine_value::{Engine, Point, Route};
use event::EventKind;
use state_codes::State;
use wire::Refusal;

// The held stop that is reached.
#[tactic(auto, using(crate::proofs::Laws::held_there, crate::proofs::Laws::none_held))]
fn held_stop(e: &Engine) -> Option<Point>
    ensures { result ≡ held_stop_in e.now }
{
    let p = e.progress;
    let point = position::point(e.route(), p.next);
    let reached = p.reached && p.next < position::points_loaded(e.load);
    (reached && point.held).then_some(point)
}

// Row 20: a press at a held stop.
#[tactic(auto, unfolding(crate::specs::Hold::hold_row))]
fn hold_row(e: &Engine, kind: EventKind) -> Result<(), Refusal>
    ensures { judged result ≡ hold_row (held_stop_in e.now) (kind_number kind) }
{
    match kind {
        EventKind::Press if held_stop(e).is_some() => Err(Refusal::Held),
        _ => Ok(()),
    }
}

// The places "power" and "state" of the table of numbers.
#[tactic(auto, unfolding(crate::specs::Hold::rows_of_state))]
pub fn rows_of_state(e: &Engine, kind: EventKind) -> Result<(), Refusal>
    ensures { judged result ≡ rows_of_state e.now (kind_number kind) }
{
    state_codes::state_rows(State::from(e.control.state), u8::from(kind))?;
    hold_row(e, kind)
}

// The journey has a held stop of that name.
fn keeps_hold(j: Route, nidtp: u32) -> bool
    ensures { result ≡ keeps_hold (route_view j.entry) nidtp }
{
    let points = j.points;
    points
        .iter()
        .take(position::points_loaded(j.load) as usize)
        .any(|p| p.nidtp == nidtp && p.held)
}

// The stop at which the train was held until a load of that journey.
#[tactic(auto, unfolding(crate::specs::Hold::hold_ended))]
pub fn hold_ended(e: &Engine, new: Route) -> Option<Point>
    ensures { result ≡ hold_ended (held_stop_in e.now) (route_view new.entry) }
{
    let p = held_stop(e)?;
    if keeps_hold(new, p.nidtp) {
        None
    } else {
        Some(p)
    }
}
