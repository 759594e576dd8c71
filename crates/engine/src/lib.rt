// The event call: one event, with the profiles and the output memory that the host lends. It is read; power and state allow it; it looks up
// the journey; it has its effect, which is judged; and what comes of it is stored and written. Profiles that were turned down are recorded.
#![tactic(auto)]

ghost use Rattle.std.specs.Prelude.{◌≡◌, List, ℕ};
ghost use Rattle.std.proofs.lemmas.List.Edits.{sets};
ghost use Rattle.wire.specs.Judged.Judged.{accept};
ghost use Rattle.wire.specs.View.{judged};
ghost use Rattle.event.specs.Events.{event_of};
ghost use Rattle.event.specs.Kinds.{load, kind_of, role_of};
ghost use Rattle.event.specs.View.{event_view};
ghost use Rattle.hold.specs.Hold.{rows_of_state};
ghost use Rattle.route.specs.Route.{load_of};
ghost use Rattle.route.specs.View.{loaded_view};
ghost use Rattle.packets.specs.Packets.{joined};
ghost use Rattle.event_packets.specs.View.{packets_view};
ghost use Rattle.call.specs.Call.{step_of};
ghost use Rattle.adhesion.specs.View.{constraints_view};
ghost use Rattle.adhesion.specs.Constraints.{max_constraints, blank_constraint};
ghost use Rattle.engine_value.specs.Engine.{no_route, filled, adhesion_of};
ghost use Rattle.engine_value.specs.View.{route_view};
ghost use Rattle.judge.specs.View.{engine_after};
ghost use Rattle.call_values.specs.View.{answer_view};
ghost use Rattle.engine.specs.View.{answer_of, call, with_route, Takes, take_of, KeepsJourney};

use adhesion::{Constraints, MAX_CONSTRAINTS, TemporaryConstraint};
use call_values::{Accepted, Refused};
use effects::JourneyAfter;
use engine_value::{Adhesion, Engine, Load, MAX_POINTS, Point, Route, Segment};
use event::{Event, Role};
use judge::Judgement;
use look_up::Occurrence;
use route::Loaded;
use wire::Refusal;

// No journey: blanks, filled in where they stand. As another journey they would first be made elsewhere, and then copied.
fn clear_journey(e: &mut Engine)
    ensures { e.new ≡ with_route e.old no_route }
{
    e.points.fill(Point::default());
    e.segments.fill(Segment::default());
    e.load = Load::default();
    e.skips.fill(false);
}

// The values one by one: `copy_from_slice`, as an assignment of the whole array, asks for memmove, where the header promises memcpy and memset
// alone. By the index: of what `iter_mut().zip(..)` leaves, the library says nothing.
#[tactic(auto, using(std::proofs::lemmas::List::take_all))]
fn copy<T: Copy, const N: usize>(to: &mut [T; N], from: &[T; N])
    ensures { to.new ≡ from.now }
{
    for i in 0..N {
        to[i] = from[i];
    }
}

// Another journey.
fn replace_journey(e: &mut Engine, j: Route)
    ensures { e.new ≡ with_route e.old (route_view j.entry) }
{
    copy(&mut e.points, j.points);
    copy(&mut e.segments, j.segments);
    e.load = j.load;
    e.skips.fill(false);
}

// These rows, and blank ones behind them, where they stand.
fn copy_rows(to: &mut [TemporaryConstraint; MAX_CONSTRAINTS], c: Constraints)
    ensures { to.new ≡ filled max_constraints blank_constraint (constraints_view c.entry) }
{
    for k in 0..MAX_CONSTRAINTS {
        to[k] = c.row(k as u8);
    }
}

fn show_rows(a: &mut Adhesion, c: Constraints)
    ensures { a.new ≡ adhesion_of (constraints_view c.entry) }
{
    copy_rows(&mut a.constraints, c);
    a.count = u32::from(c.count());
}

// The groups as they were judged, and what becomes of the journey.
fn store(e: &mut Engine, t: &Judgement)
    ensures { e.new ≡ engine_after e.old t.now }
{
    let f = t.effect;
    match f.journey {
        JourneyAfter::Kept => {}
        JourneyAfter::Cleared => clear_journey(e),
        JourneyAfter::Replaced(j) => replace_journey(e, j),
        JourneyAfter::SkipSet { at, on } => {
            // by the index, as in wire's `Number`
            let at = usize::from(at);
            if at < MAX_POINTS {
                e.skips[at] = on;
            }
        }
    }
    e.train = f.train;
    e.progress = f.progress;
    e.inputs = f.inputs;
    e.control = t.control;
    e.traction = t.traction;
    if let Some(c) = t.shown {
        show_rows(&mut e.adhesion, c);
    }
}

// What was judged is stored and written.
fn accept(e: &mut Engine, t: &Judgement, out: &mut [u8]) -> Accepted
    ensures engine { e.new ≡ engine_after e.old t.now }
    ensures answer { result ≡ answer_of t.now }
    ensures output { out.new ≡ sets out.old 0 (joined (packets_view (engine_after e.old t.now) t.now.writes)) }
{
    store(e, t);
    event_packets::write(e, &t.writes, out);
    Accepted {
        state: t.control.state,
        request: t.control.request,
        bytes: t.size,
    }
}

// A load whose profiles are read, in a function of its own: it takes the stack that reading them took, and no more beside it.
#[inline(never)]
fn loaded(e: &mut Engine, event: Event, l: &Loaded, out: &mut [u8]) -> Result<Accepted, Refusal>
    ensures { (bytes journey book : List ℕ) → accept (event_view event.entry) ≡ event_of bytes → accept tt ≡ rows_of_state e.old (kind_of (event_view event.entry)) → load ≡ role_of (event_view event.entry) → accept (loaded_view l.now) ≡ load_of journey book → Takes (take_of e.old (call bytes journey book out.old)) e.new (judged result) out.new }
{
    let o = Occurrence::new(e, event);
    let told = effects::told(e, l.route());
    let t = judge::judge(&o, &effects::load(&o, l, &told), out.len())?;
    Ok(accept(e, &t, out))
}

// A load that is read and allowed, in a function of its own: what its journey takes of the stack, no other event then takes.
#[inline(never)]
fn load(
    e: &mut Engine,
    event: Event,
    journey: &[u8],
    book: &[u8],
    out: &mut [u8],
) -> Result<Accepted, Refusal>
    ensures { (bytes : List ℕ) → accept (event_view event.entry) ≡ event_of bytes → accept tt ≡ rows_of_state e.old (kind_of (event_view event.entry)) → load ≡ role_of (event_view event.entry) → Takes (take_of e.old (call bytes journey.now book.now out.old)) e.new (judged result) out.new }
{
    let l = route::load_route(journey, book)?;
    loaded(e, event, &l, out)
}

// The rows of the table of numbers, one after the other; where none refuses, what comes of the event is stored and written.
fn take(
    e: &mut Engine,
    event: &[u8],
    journey: &[u8],
    book: &[u8],
    out: &mut [u8],
) -> Result<Accepted, Refusal>
    ensures { Takes (take_of e.old (call event.now journey.now book.now out.old)) e.new (judged result) out.new }
{
    let v = event::read_event(event)?;
    hold::rows_of_state(e, v.kind())?;
    let o = Occurrence::new(e, v);
    let f = match o.event.role() {
        Role::Off => effects::power_off(),
        Role::Load => return load(e, v, journey, book, out),
        Role::Report => effects::report(&o)?,
        Role::Skip { .. } => effects::skip(&o)?,
        Role::Other => effects::values(&o),
    };
    let t = judge::judge(&o, &f, out.len())?;
    Ok(accept(e, &t, out))
}

// One event. A refusal leaves the engine as it was, and the memory, too, but for the packet 65 of profiles that were turned down. Points and segments are
// rewritten by an accepted load and by power off alone. The slices apart, as the C call hands them over.
pub fn step(
    e: &mut Engine,
    event: &[u8],
    journey: &[u8],
    book: &[u8],
    out: &mut [u8],
) -> Result<Accepted, Refused>
    ensures engine { e.new ≡ (step_of e.old (call event.now journey.now book.now out.old)).engine }
    ensures answer { answer_view result ≡ (step_of e.old (call event.now journey.now book.now out.old)).answer }
    ensures output { out.new ≡ (step_of e.old (call event.now journey.now book.now out.old)).memory }
    ensures journey { KeepsJourney (event_of event.now) e.old e.new }
{
    match take(e, event, journey, book, out) {
        Ok(a) => Ok(a),
        Err(row) => Err(Refused {
            row,
            bytes: turned_down::write(e, row, out),
        }),
    }
}
