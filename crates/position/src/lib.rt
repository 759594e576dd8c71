// Where the train's front is, and where each timing point stands.
#![tactic(auto)]

ghost use Rattle.std.specs.Prelude.{◌≡◌, ◌<◌, ◌^◌, option_map, IfSome};
ghost use Rattle.engine_value.specs.Engine.{max_points};
ghost use Rattle.engine_value.specs.View.{route_view};
ghost use Rattle.wire.specs.Lists.{any};
ghost use Rattle.position.specs.Position.{points_loaded, point, in_zone, zones_of, bears, named, segment_named, front, front_at};
ghost use Rattle.position.specs.Standing.{standing, is_passed, behind, standing_code};
ghost use Rattle.position.specs.Skips.{stop_named, stop_in};

use engine_value::{
    Engine, Load, MAX_POINTS, Point, Position, Progress, Route, Segment, UNDEFINED, Zone,
};
use std::cmp::Ordering;

// The journey segment that a position names: whether it is in the book and placed, whether the offset is in one of its zones, its start and its
// length. The flags apart, as in the engine's Segment: the equations hold of every engine, so also where `placed` stands and `booked` does not.
#[derive(Clone, Copy)]
pub struct Named {
    pub booked: bool,
    pub placed: bool,
    pub inside: bool,
    pub start: u32,
    pub length: u32,
}

// The stop of a name, by its index, and whether the driver skips it.
#[derive(Clone, Copy)]
pub struct Stop {
    pub at: u8,
    pub skipped: bool,
}

// A position, and the segment that it names of the journey in force.
#[derive(Clone, Copy)]
pub struct Place<'a> {
    pub journey: Route<'a>,
    pub position: Position,
    pub segment: Option<Named>,
    ghost named: { segment ≡ segment_named (route_view journey) position },
}

// Where the train's front is, from the journey's start.
#[derive(Clone, Copy)]
pub struct Front {
    pub at: u64,
    ghost below: { at < 2 ^ 33 },
}

// Where a timing point stands.
#[derive(Clone, Copy)]
pub enum Standing {
    Unused = 0,
    Targeted = 1,
    Reached = 2,
    Passed = 3,
}

impl Standing {
    pub fn is_passed(self) -> bool
        ensures { result ≡ is_passed self }
    {
        matches!(self, Standing::Passed)
    }

    // Reached or passed.
    pub fn is_behind(self) -> bool
        ensures { result ≡ behind self }
    {
        matches!(self, Standing::Reached | Standing::Passed)
    }
}

impl From<Standing> for u8 {
    ghost from_gives = { λ s n. n ≡ standing_code s };

    fn from(s: Standing) -> u8 {
        s as u8
    }
}

// ---- where the train is

// Functions and no methods: Load, Route and Engine are engine_value's, whose specs/ do not have these definitions.

// How many points the journey has, whatever its count says: the array holds 64.
pub fn points_loaded(l: Load) -> u8
    ensures { result ≡ points_loaded l }
{
    l.point_count.min(MAX_POINTS as u8)
}

fn in_zone(z: &Zone, offset: u32) -> bool
    ensures { result ≡ in_zone offset z.now }
{
    (z.start..=z.end).contains(&offset)
}

fn in_zones(s: &Segment, offset: u32) -> bool
    ensures { result ≡ any (in_zone offset) (zones_of s.now) }
{
    s.zones
        .iter()
        .take(s.zone_count as usize)
        .any(|z| in_zone(z, offset))
}

// A segment that a position with that offset names.
fn named_of(s: &Segment, offset: u32) -> Named
    ensures { result ≡ named offset s.now }
{
    Named {
        booked: s.booked,
        placed: s.placed,
        inside: in_zones(s, offset),
        start: s.start,
        length: s.length,
    }
}

// NID_C and NID_SP stand apart in both: a struct of the two would have padding in the engine (C layout).
fn bears(s: &Segment, x: Position) -> bool
    ensures { result ≡ bears x.nidc x.nidsp s.now }
{
    (s.nidc, s.nidsp) == (x.nidc, x.nidsp)
}

// Point k of the journey; blank beyond the last of the array.
pub fn point(j: Route, k: u8) -> Point
    ensures { result ≡ point (route_view j.entry) k }
{
    let points = j.points;
    points.get(k as usize).copied().unwrap_or_default()
}

// The journey segment that a position names.
pub fn segment_named(j: Route, x: Position) -> Option<Named>
    ensures { result ≡ segment_named (route_view j.entry) x }
{
    let segments = j.segments;
    segments
        .iter()
        .take(j.load.segment_count as usize)
        .find(|s| bears(s, x))
        .map(|s| named_of(s, x.offset))
}

// Where the front is, if the position is known: by the segment that it names.
#[tactic(auto, unfolding(crate::specs::Position::front))]
pub fn front_in(s: Option<Named>, x: Position) -> Option<Front>
    ensures { option_map (λ f. f.at) result ≡ front s x }
{
    let s = s?;
    if x.offset == UNDEFINED || !s.placed || s.length < x.offset {
        return None;
    }
    Some(Front {
        at: s.start as u64 + x.offset as u64,
    })
}

impl<'a> Place<'a> {
    pub fn new(journey: Route<'a>, position: Position) -> Place<'a>
        ensures journey { route_view result.journey ≡ route_view journey.entry }
        ensures position { result.position ≡ position }
    {
        Place {
            journey,
            position,
            segment: segment_named(journey, position),
        }
    }

    // Where the front is, if the position is known.
    pub fn front(self) -> Option<Front>
        ensures { option_map (λ f. f.at) result ≡ front_at (route_view self.entry.journey) self.entry.position }
    {
        front_in(self.segment, self.position)
    }
}

// ---- driver skips and standings

// The index of the first stop of that name.
#[tactic(auto, unfolding(crate::specs::Skips::stop_named))]
fn stop_named(j: Route, nidtp: u32) -> Option<usize>
    ensures { result ≡ stop_named (route_view j.entry) nidtp }
{
    let points = j.points;
    points
        .iter()
        .take(points_loaded(j.load) as usize)
        .position(|p| p.stop && p.nidtp == nidtp)
}

// The stop of that name.
#[tactic(auto, using(crate::proofs::Laws::stop_below))]
pub fn find_stop(e: &Engine, nidtp: u32) -> Option<Stop>
    ensures value { result ≡ stop_in e.now nidtp }
    ensures within { IfSome result (λ s. s.at < max_points) }
{
    let at = stop_named(e.route(), nidtp)?;
    Some(Stop {
        at: at as u8,
        skipped: e.skips[at],
    })
}

// Where point k stands.
pub fn standing_of(p: Progress, k: u8) -> Standing
    ensures { result ≡ standing p k }
{
    match k.cmp(&p.next) {
        Ordering::Less => Standing::Passed,
        Ordering::Equal if p.reached => Standing::Reached,
        Ordering::Equal => Standing::Targeted,
        Ordering::Greater => Standing::Unused,
    }
}
