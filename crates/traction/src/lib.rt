// Traction requests: their ranges, what is remembered of them, and the packet 61 that tells a change.
#![tactic(auto)]

ghost use Rattle.std.specs.Prelude.{◌≡◌};
ghost use Rattle.event.specs.View.{event_view};
ghost use Rattle.state_codes.specs.Codes.{state_at};
ghost use Rattle.traction.specs.Ranges.{lowest, ranges, range_after, holds_at};
ghost use Rattle.traction.specs.Requests.{requested, driving, made, forgets, remembered_after, changed, written_content};
ghost use Rattle.traction.specs.View.{remembered_in, traction_of};

use engine_value::Traction;
use event::{Event, TractionRequest};
use packets::Requested;
use state_codes::State;

// Range and Q_ATO_SupTB of a request.
#[derive(Clone, Copy, PartialEq, Eq)]
pub struct Remembered {
    pub range: u8,
    pub suptb: u8,
}

// ---- the ranges

// The least and the greatest size that each range holds.
const RANGES: [(u8, u8); 5] = [(0, 0), (1, 27), (23, 77), (73, 95), (91, 100)];

// Range k holds the size.
fn holds(k: u8, size: u8) -> bool
    ensures { result ≡ holds_at ranges k size }
{
    RANGES
        .get(k as usize)
        .is_some_and(|&(low, high)| (low..=high).contains(&size))
}

// The lowest range that holds the size; where none does, as many as there are.
fn lowest(size: u8) -> u8
    ensures { result ≡ lowest ranges size }
{
    RANGES
        .iter()
        .position(|&(low, high)| (low..=high).contains(&size))
        .unwrap_or(RANGES.len()) as u8
}

// The range of a request, from the one before.
fn range_after(before: Option<u8>, size: u8) -> u8
    ensures { result ≡ range_after before size }
{
    before
        .filter(|k| holds(*k, size))
        .unwrap_or_else(|| lowest(size))
}

// ---- what is remembered

// The engine's group has a flag with values beside it, for the C layout; here it is an Option. `From` may not join two types of other crates.
fn remembered_in(t: Traction) -> Option<Remembered>
    ensures { result ≡ remembered_in t }
{
    if t.remembered {
        Some(Remembered {
            range: t.range,
            suptb: t.suptb,
        })
    } else {
        None
    }
}

fn traction_of(m: Option<Remembered>) -> Traction
    ensures { result ≡ traction_of m }
{
    m.map_or(
        Traction::default(),
        |r| Traction {
            remembered: true,
            range: r.range,
            suptb: r.suptb,
            spare: 0,
        },
    )
}

fn driving(s: State) -> bool
    ensures { result ≡ driving s }
{
    s == State::EG || s == State::DE
}

// The request of an event that comes in that state.
fn made(s: State, v: Event) -> Option<TractionRequest>
    ensures { result ≡ made s (event_view v.entry) }
{
    if let Event::Traction(x) = v
        && driving(s)
    {
        Some(x)
    } else {
        None
    }
}

// Power off, or EG is entered.
fn forgets(before: State, v: Event, after: State) -> bool
    ensures { result ≡ forgets before (event_view v.entry) after }
{
    matches!(v, Event::PowerOff) || (after == State::EG && before != State::EG)
}

// A request's range and its Q_ATO_SupTB, after those of the request before.
fn requested(m: Option<Remembered>, x: TractionRequest) -> Remembered
    ensures { result ≡ requested m x }
{
    Remembered {
        range: range_after(m.map(|r| r.range), wire::magnitude(x.request)),
        suptb: x.content.q_ato_suptb,
    }
}

// What is remembered after an event in the state `before`, which led to `after`.
pub fn traction_after(before: u8, v: Event, after: u8, t: Traction) -> Traction
    ensures { result ≡ traction_of (remembered_after (state_at before) (event_view v.entry) (state_at after) (remembered_in t)) }
{
    let state = State::from(before);
    let m = remembered_in(t);
    let kept = made(state, v).map(|x| requested(m, x)).or(m);
    if forgets(state, v, State::from(after)) {
        Traction::default()
    } else {
        traction_of(kept)
    }
}

// ---- the packet

// Nothing was remembered, or range or Q_ATO_SupTB are others.
fn changed(before: Option<Remembered>, after: Option<Remembered>) -> bool
    ensures { result ≡ changed before after }
{
    before.is_none() || before != after
}

// The content of the packet 61 that an event in that state writes, if it does.
pub fn content_written(state: u8, v: Event, before: Traction, after: Traction) -> Option<Requested>
    ensures { result ≡ written_content (state_at state) (event_view v.entry) (remembered_in before) (remembered_in after) }
{
    if changed(remembered_in(before), remembered_in(after)) {
        made(State::from(state), v).map(|x| x.content)
    } else {
        None
    }
}
