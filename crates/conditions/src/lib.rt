// The nine conditions (001 §6.4.9).
#![tactic(auto)]

ghost use Rattle.std.specs.Prelude.{◌≡◌, map};
ghost use Rattle.wire.specs.Numbers.{flag};
ghost use Rattle.engine_value.specs.View.{route_view};
ghost use Rattle.engine_value.specs.Engine.{Route, route_in};
ghost use Rattle.status_word.specs.Word.{conditions_of};
ghost use Rattle.position.specs.Position.{placed};
ghost use Rattle.position.specs.Standing.{standing};
ghost use Rattle.conditions.specs.Conditions.{end_ahead, last_ahead, profiles_there, too_far, located, route_conditions_by, route_conditions, nine, conditions};

use engine_value::{Engine, Load, Position, Progress, UNDEFINED};
use position::{Named, Place};
use status_word::OperationalConditions;
use wire::bit;

// What the conditions look up in the journey: 4, the first point not passed is placed, or none is left; 6, the offset counts in a segment
// of the journey; 7, it is outside of the zones.
#[derive(Clone, Copy)]
pub struct RouteConditions {
    pub profiles: bool,
    pub located: bool,
    pub outside: bool,
}

// Functions and no methods: Load, Place and Named are of crates below, whose specs/ do not have these definitions.

// The End of Journey is neither reached nor passed, at a progress.
pub fn end_ahead(l: Load, p: Progress) -> bool
    ensures { result ≡ end_ahead l (standing p) }
{
    l.valid && !position::standing_of(p, l.ending).is_behind()
}

fn last_ahead(l: Load, p: Progress) -> bool
    ensures { result ≡ last_ahead l (standing p) }
{
    let last = position::points_loaded(l).saturating_sub(1);
    l.valid && !position::standing_of(p, last).is_passed()
}

// The first point not passed is placed, which `first` tells, or none is left, at a progress.
#[tactic(auto, using(crate::proofs::Laws::first_ahead_lem))]
pub fn profiles_there(l: Load, p: Progress, first: bool) -> bool
    ensures { (j : Route) → l ≡ j.load → first ≡ placed j p.next → result ≡ profiles_there j (standing p) }
{
    l.valid && (position::points_loaded(l) <= p.next || first)
}

// An offset held from before a load and beyond its segment's new length.
pub fn too_far(x: Position, s: Named) -> bool
    ensures { result ≡ too_far x s }
{
    s.booked && s.length < x.offset
}

// The offset is defined and counts in the segment that the position names.
fn located(s: Option<Named>, x: Position) -> bool
    ensures { result ≡ located s x }
{
    x.offset != UNDEFINED && s.is_some_and(|s| !too_far(x, s))
}

// What the conditions look up, by the segment that the position names; `profiles` is condition 4.
pub fn route_conditions_by(s: Option<Named>, x: Position, profiles: bool) -> RouteConditions
    ensures { result ≡ route_conditions_by s x profiles }
{
    let located = located(s, x);
    RouteConditions {
        profiles,
        located,
        outside: !(located && s.is_some_and(|s| s.inside)),
    }
}

// What the conditions look up.
pub fn route_conditions(place: Place, p: Progress) -> RouteConditions
    ensures { result ≡ route_conditions (route_view place.entry.journey) place.entry.position (standing p) }
{
    let j = place.journey;
    let profiles = profiles_there(j.load, p, position::point(j, p.next).placed);
    route_conditions_by(place.segment, place.position, profiles)
}

// The nine conditions, from what they look up.
#[tactic(auto, using(crate::proofs::Laws::byte_is))]
pub fn conditions_of(l: Load, reports: u8, w: RouteConditions, p: Progress) -> OperationalConditions
    ensures { result ≡ conditions_of (map flag (nine l reports w (standing p))) }
{
    OperationalConditions {
        etcs_fulfilled: u8::from(bit(reports, 0)),
        no_emergency_brake: u8::from(bit(reports, 1)),
        end_ahead: u8::from(end_ahead(l, p)),
        last_ahead: u8::from(last_ahead(l, p)),
        profiles_there: u8::from(w.profiles),
        no_inconsistency: u8::from(bit(reports, 2)),
        located: u8::from(w.located),
        outside_zones: u8::from(w.outside),
        data_valid: u8::from(bit(reports, 3)),
    }
}

// The nine conditions of an engine.
#[tactic(auto, unfolding(crate::specs::Conditions::conditions))]
pub fn conditions(e: &Engine) -> OperationalConditions
    ensures { result ≡ conditions (route_in e.now) e.now.inputs.reports e.now.train.position (standing e.now.progress) }
{
    let w = route_conditions(Place::new(e.route(), e.train.position), e.progress);
    conditions_of(e.load, e.inputs.reports, w, e.progress)
}
