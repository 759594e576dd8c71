// What an event does, group by group and never as an engine, and the rows of the table of numbers that refuse it.
#![tactic(auto)]

ghost use Rattle.std.specs.Prelude.{◌≡◌, ℕ, Bool, IfOk};
ghost use Rattle.wire.specs.View.{judged_by};
ghost use Rattle.engine_value.specs.View.{route_view};
ghost use Rattle.engine_value.specs.declared.Engine as engine;
ghost use Rattle.event.specs.Kinds.{other, report, skip, load, role_of, carried};
ghost use Rattle.event.specs.View.{event_view};
ghost use Rattle.call_values.specs.Rows.{offset_beyond};
ghost use Rattle.call.specs.Effect.{route_after, train_with, inputs_with, values_only, power_off, position_effect, loaded_in, skip_effect};
ghost use Rattle.route.specs.View.{loaded_view};
ghost use Rattle.effects.specs.View.{reported_changes, unchanged, journey_view, effect_view, Beside, TellsOf};

use conditions::RouteConditions;
use engine_value::{Control, Engine, Inputs, Load, Position, Progress, Route, Train, UNDEFINED};
use event::{Event, Role};
use event_packets::{Change, Changes, Received, Told};
use look_up::Occurrence;
use packets::PointStatus;
use position::{Named, Place};
use route::Loaded;
use timing::Reported;
use wire::Refusal;

// What becomes of the journey in force and of the driver skips: kept, cleared by power off, replaced by a load, one skip given or revoked.
#[derive(Clone, Copy)]
pub enum JourneyAfter<'a> {
    Kept,
    Cleared,
    Replaced(Route<'a>),
    SkipSet { at: u8, on: bool },
}

impl<'a> JourneyAfter<'a> {
    // The load's group after it.
    pub fn load(self, e: &Engine) -> Load
        ensures { result ≡ (route_after e.now (journey_view self.entry)).load }
    {
        match self {
            JourneyAfter::Cleared => Load::default(),
            JourneyAfter::Replaced(j) => j.load,
            JourneyAfter::Kept | JourneyAfter::SkipSet { .. } => e.load,
        }
    }
}

// The groups with the event's values, the packet 65 of a journey that was loaded, what it tells of the journey before it, the points that changed, and
// conditions 4, 6 and 7 after it.
// `Beside` is said of it in the contracts: as its ghost field it would need the engine here, lent, and nothing could be stored there meanwhile.
#[derive(Clone, Copy)]
pub struct Effect<'a> {
    pub journey: JourneyAfter<'a>,
    pub train: Train,
    pub progress: Progress,
    pub inputs: Inputs,
    pub control: Control,
    pub received: Option<Received>,
    pub told: Option<&'a Told>,
    pub changes: Changes,
    pub after: RouteConditions,
}

// No point is changed.
const NO_CHANGES: Changes = Changes {
    first: None,
    from: 0,
    to: 0,
    last: None,
    held: None,
};

// The groups of an engine as they are.
fn unchanged<'a>(e: &Engine, after: RouteConditions) -> Effect<'a>
    ensures { result ≡ unchanged e.now after }
{
    Effect {
        journey: JourneyAfter::Kept,
        train: e.train,
        progress: e.progress,
        inputs: e.inputs,
        control: e.control,
        received: None,
        told: None,
        changes: NO_CHANGES,
        after,
    }
}

// ---- the values that an event brings

fn train_with(o: &Occurrence) -> Train
    ensures { result ≡ train_with o.now.engine.now (carried (event_view o.now.event)) }
{
    let e = o.engine;
    match o.event {
        Event::Length(length) => Train { length, ..e.train },
        Event::PositionReport(position) => Train {
            position,
            ..e.train
        },
        _ => e.train,
    }
}

fn inputs_with(o: &Occurrence) -> Inputs
    ensures { result ≡ inputs_with o.now.engine.now (carried (event_view o.now.event)) }
{
    let e = o.engine;
    match o.event {
        Event::Reports(reports) => Inputs {
            reports,
            ..e.inputs
        },
        Event::Mode(mode) => Inputs { mode, ..e.inputs },
        Event::Lever(lever) => Inputs { lever, ..e.inputs },
        _ => e.inputs,
    }
}

// An event that brings values, or nothing. `beside` supposes its role, as below: each function another one, so that no type says it for all.
#[tactic(auto, unfolding(timing::specs::Changes::passings))]
pub fn values<'a>(o: &Occurrence) -> Effect<'a>
    ensures effect { effect_view result ≡ values_only o.now.engine.now (carried (event_view o.now.event)) }
    ensures beside { role_of (event_view o.now.event) ≡ other → Beside o.now.engine.now result }
{
    Effect {
        train: train_with(o),
        inputs: inputs_with(o),
        ..unchanged(o.engine, o.looked.before)
    }
}

// ---- the position report

// Row 13: an offset beyond the length of the segment that the position names.
#[tactic(auto, unfolding(call_values::specs::Rows::offset_beyond))]
fn offset_beyond(s: Option<Named>, x: Position) -> bool
    ensures { result ≡ offset_beyond s x }
{
    x.offset != UNDEFINED && s.is_some_and(|s| conditions::too_far(x, s))
}

// What a report changes; `index` is the first point not passed before it; `held`: that after it is held.
fn changes_of(index: u8, t: Reported, held: bool) -> Changes
    ensures { result ≡ reported_changes index t held }
{
    let after = Progress {
        next: t.from,
        reached: false,
    };
    let departure = Change {
        index,
        status: u8::from(PointStatus::Departed),
        after,
    };
    let stop = Change {
        index: t.progress.next,
        status: u8::from(PointStatus::Stopped),
        after: t.progress,
    };
    let hold = Change {
        status: u8::from(PointStatus::Held),
        ..stop
    };
    Changes {
        first: t.departed.then_some(departure),
        from: t.from,
        to: t.progress.next,
        last: t.reached.then_some(stop),
        held: (t.reached && held).then_some(hold),
    }
}

// A position report.
#[tactic(auto, unfolding(call::specs::Effect::position_effect), using(crate::proofs::Laws::then_some))]
pub fn report<'a>(o: &Occurrence) -> Result<Effect<'a>, Refusal>
    ensures effect { judged_by effect_view result ≡ position_effect o.now.engine.now (carried (event_view o.now.event)) o.now.looked }
    ensures beside { role_of (event_view o.now.event) ≡ report → IfOk result (λ f. Beside o.now.engine.now f) }
{
    let e = o.engine;
    let train = train_with(o);
    if offset_beyond(o.looked.segment, train.position) {
        return Err(Refusal::Beyond);
    }
    let t = o.looked.report;
    let place = Place::new(e.route(), train.position);
    let after = conditions::route_conditions(place, t.progress);
    let held = position::point(e.route(), t.progress.next).held;
    Ok(Effect {
        train,
        inputs: inputs_with(o),
        progress: t.progress,
        changes: changes_of(e.progress.next, t, held),
        ..unchanged(e, after)
    })
}

// ---- driver skips

// A driver skip is given, and none revoked.
fn gives_skip(v: Event) -> bool
    ensures { (t : ℕ) (on : Bool) → role_of (event_view v.entry) ≡ skip t on → result ≡ on }
{
    matches!(v.role(), Role::Skip { on: true, .. })
}

// A driver skip, or its revocation.
#[tactic(auto, unfolding(call::specs::Effect::skip_effect, timing::specs::Changes::passings), using(crate::proofs::Laws::carries_skip))]
pub fn skip<'a>(o: &Occurrence) -> Result<Effect<'a>, Refusal>
    ensures effect { (t : ℕ) (on : Bool) → role_of (event_view o.now.event) ≡ skip t on → judged_by effect_view result ≡ skip_effect o.now.engine.now (carried (event_view o.now.event)) on o.now.looked.stop }
    ensures beside { (t : ℕ) (on : Bool) → role_of (event_view o.now.event) ≡ skip t on → IfOk result (λ f. Beside o.now.engine.now f) }
{
    let e = o.engine;
    let on = gives_skip(o.event);
    let stop = o.looked.stop.ok_or(Refusal::NoStop)?;
    // reached or passed
    let behind = position::standing_of(e.progress, stop.at).is_behind();
    if behind || stop.skipped == on {
        return Err(Refusal::Skip);
    }
    let status = if on {
        PointStatus::Skipped
    } else {
        PointStatus::Revoked
    };
    let change = Change {
        index: stop.at,
        status: u8::from(status),
        after: e.progress,
    };
    Ok(Effect {
        journey: JourneyAfter::SkipSet { at: stop.at, on },
        changes: Changes {
            first: Some(change),
            ..NO_CHANGES
        },
        ..unchanged(e, o.looked.before)
    })
}

// ---- power off

// Power off returns to fresh: no journey, so that 4 and 6 are 0 and 7 is 1.
#[tactic(auto, unfolding(timing::specs::Changes::passings))]
pub fn power_off<'a>() -> Effect<'a>
    ensures effect { effect_view result ≡ power_off }
    ensures beside { (e : engine.Engine) → Beside e result }
{
    let after = RouteConditions {
        profiles: false,
        located: false,
        outside: true,
    };
    Effect {
        journey: JourneyAfter::Cleared,
        train: Train::default(),
        progress: Progress::default(),
        inputs: Inputs::default(),
        control: Control::default(),
        received: None,
        told: None,
        changes: NO_CHANGES,
        after,
    }
}

// ---- the load

// What a load of that journey tells of the one before it.
pub fn told(e: &Engine, j: Route) -> Told
    ensures { TellsOf e.now (route_view j.entry) result }
{
    Told {
        hold_ended: hold::hold_ended(e, j),
        statuses: trackside::compare(e.route(), j),
    }
}

// A load, judged on the new journey with no driver skip.
#[tactic(auto, unfolding(timing::specs::Changes::passings), using(crate::proofs::Laws::carries_load, crate::proofs::Laws::load_changes))]
pub fn load<'a>(o: &Occurrence, l: &'a Loaded, told: &'a Told) -> Effect<'a>
    ensures effect { role_of (event_view o.now.event) ≡ load → TellsOf o.now.engine.now (loaded_view l.now).route told.now → effect_view result ≡ loaded_in o.now.engine.now (carried (event_view o.now.event)) (loaded_view l.now) }
    ensures beside { Beside o.now.engine.now result }
{
    let e = o.engine;
    let j = l.route();
    let place = Place::new(j, e.train.position);
    let progress = Progress {
        next: timing::target(place, e.train.length),
        reached: false,
    };
    let received = Received {
        head: l.head,
        nidc: event_packets::country(place),
    };
    let after = conditions::route_conditions(place, progress);
    Effect {
        journey: JourneyAfter::Replaced(j),
        progress,
        received: Some(received),
        told: Some(told),
        ..unchanged(e, after)
    }
}
