// What an event looks up in the journey's segments and points and in the driver skips, before anything is stored.
#![tactic(auto)]

ghost use Rattle.std.specs.Prelude.{◌≡◌};
ghost use Rattle.event.specs.View.{event_view};
ghost use Rattle.look_up.specs.LookUp.{look_up};

use conditions::RouteConditions;
use engine_value::Engine;
use event::{Event, Role};
use position::{Named, Place, Stop};
use timing::{PositionReport, Reported};

// Conditions 4, 6 and 7 before the event, the segment that the position after it names, what a position report brings, and the stop that a
// driver skip names. No enum by kind of event: `report` and `stop` have a value for each, that no point moves and that no stop is named, which
// is what such an event does, and so the rules read one field each.
#[derive(Clone, Copy)]
pub struct LookedUp {
    pub before: RouteConditions,
    pub segment: Option<Named>,
    pub report: Reported,
    pub stop: Option<Stop>,
}

// An event as it occurs: the engine that it meets, and what it looks up there.
#[derive(Clone, Copy)]
pub struct Occurrence<'e, 'a> {
    pub engine: &'e Engine,
    pub event: Event<'a>,
    pub looked: LookedUp,
    ghost found: { looked ≡ look_up engine.now (event_view event) },
}

impl<'e, 'a> Occurrence<'e, 'a> {
    pub fn new(engine: &'e Engine, event: Event<'a>) -> Occurrence<'e, 'a>
        ensures engine { result.engine.now ≡ engine.now }
        ensures event { event_view result.event ≡ event_view event.entry }
    {
        Occurrence {
            engine,
            event,
            looked: look_up(engine, event),
        }
    }
}

pub fn look_up(e: &Engine, v: Event) -> LookedUp
    ensures { result ≡ look_up e.now (event_view v.entry) }
{
    let before = conditions::route_conditions(Place::new(e.route(), e.train.position), e.progress);
    let place = Place::new(e.route(), v.position_after(e.train.position));
    let role = v.role();
    let report = match role {
        Role::Report => {
            let r = PositionReport {
                place,
                length: e.train.length,
                skips: &e.skips,
            };
            timing::report(r, e.progress)
        }
        _ => timing::no_report(e.progress),
    };
    let stop = match role {
        Role::Skip { nidtp, .. } => position::find_stop(e, nidtp),
        _ => None,
    };
    LookedUp {
        before,
        segment: place.segment,
        report,
        stop,
    }
}
