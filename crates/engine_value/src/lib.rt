// The engine as a value: the journey in force, the train, how far it has come, and the ATO state. Numbers, bools and arrays of
// plain structs, so that a host in C can hold it. The Default of each group is its blank or fresh value.
// "C layout" below says just this: numbers, bools, arrays and structs of them cross to C, without padding; no Option, enum or ArrayVec does, not
// even behind a reference.
#![tactic(auto)]

ghost use Rattle.std.specs.Prelude.{◌≡◌};
ghost use Rattle.engine_value.specs.Engine.{fresh};

use adhesion::{MAX_CONSTRAINTS, TemporaryConstraint};

// The most points and segments of a journey, and the most zones of a segment.
pub const MAX_POINTS: usize = 64;

pub const MAX_SEGMENTS: usize = 40;

pub const MAX_ZONES: usize = 4;

// The greatest NID_C and NID_TP of a layout.
pub const MAX_NIDC: u32 = 1023;

pub const MAX_NIDTP: u32 = 4294967294;

// The offset that means undefined, and NID_OPERATIONAL where there is none.
pub const UNDEFINED: u32 = 16777215;

pub const NO_OPERATIONAL: u32 = 4294967295;

// No struct of the engine has padding: wide fields stand first, and each size is the sum of its fields'. Equal engines then are equal
// in every byte.

// An inhibition zone of a segment, both ends inside.
#[repr(C)]
#[derive(Clone, Copy, Default)]
pub struct Zone {
    pub start: u32,
    pub end: u32,
}

// A segment of the journey. It is placed if it and all before it are in the book; `start` is then counted from the journey's start.
// C layout: a count beside the zones, `booked` beside what the book says of it, `placed` beside `start`, and the two numbers of its name apart,
// by their widths.
#[repr(C)]
#[derive(Clone, Copy, Default)]
pub struct Segment {
    pub nidsp: u32,
    pub start: u32,
    pub length: u32,
    pub zone_count: u32,
    pub zones: [Zone; MAX_ZONES],
    pub nidc: u16,
    pub booked: bool,
    pub placed: bool,
}

// A timing point of the journey. Where it is placed, `place` is counted from the journey's start, and `reach` is the reached distance R.
// C layout: `placed` beside place and reach, the marks `stop`, `trackside` and `held` as flags, alignment and stopping by their numbers.
#[repr(C)]
#[derive(Clone, Copy, Default)]
pub struct Point {
    pub nidtp: u32,
    pub place: u32,
    pub reach: u32,
    pub nidc: u16,
    pub alignment: u8,
    pub stopping: u8,
    pub stop: bool,
    pub trackside: bool,
    pub held: bool,
    pub placed: bool,
}

// What a load settles beside the points and the segments; `ending` is the index of the End of Journey. C layout: the counts of the engine's
// arrays, and a flag where there is a journey.
#[repr(C)]
#[derive(Clone, Copy)]
pub struct Load {
    pub operational: u32,
    pub valid: bool,
    pub ending: u8,
    pub point_count: u8,
    pub segment_count: u8,
}

// No journey.
impl Default for Load {
    ghost use Rattle.engine_value.specs.Engine.{no_load};

    ghost is_default = { λ l. l ≡ no_load };

    fn default() -> Load {
        Load {
            operational: NO_OPERATIONAL,
            valid: false,
            ending: 0,
            point_count: 0,
            segment_count: 0,
        }
    }
}

// The first point not passed, and whether it is reached: points before it are passed, later ones not used.
#[repr(C)]
#[derive(Clone, Copy, Default)]
pub struct Progress {
    pub next: u8,
    pub reached: bool,
}

// Where a report says that the front is; NID_C and NID_SP name the segment. C layout: the two apart, by their widths.
#[repr(C)]
#[derive(Clone, Copy)]
pub struct Position {
    pub nidsp: u32,
    pub offset: u32,
    pub nidc: u16,
    pub speed: u16,
}

// The fresh position: the offset is undefined.
impl Default for Position {
    ghost use Rattle.engine_value.specs.Engine.{fresh_position};

    ghost is_default = { λ x. x ≡ fresh_position };

    fn default() -> Position {
        Position {
            nidsp: 0,
            offset: UNDEFINED,
            nidc: 0,
            speed: 0,
        }
    }
}

// Where the train is and how long it is, as the latest events tell.
#[repr(C)]
#[derive(Clone, Copy, Default)]
pub struct Train {
    pub position: Position,
    pub length: u32,
}

// What the latest mode, lever and report events tell. C layout: mode and lever by their numbers.
#[repr(C)]
#[derive(Clone, Copy, Default)]
pub struct Inputs {
    pub mode: u8,
    pub lever: u8,
    pub reports: u8,
}

// The ATO state, whether a press is pending, and the AD request. C layout: the state by its code.
#[repr(C)]
#[derive(Clone, Copy, Default)]
pub struct Control {
    pub state: u8,
    pub press: bool,
    pub request: bool,
}

// Range and Q_ATO_SupTB of the latest traction request, where they are remembered; else 0. `spare` is always 0: without it the engine would end in
// a byte of padding. C layout: a flag beside the two values.
#[repr(C)]
#[derive(Clone, Copy, Default)]
pub struct Traction {
    pub remembered: bool,
    pub range: u8,
    pub suptb: u8,
    pub spare: u8,
}

// The rows of slippery rail that the latest kind 15 brought. C layout: a count beside the rows, which are blank from the count on.
#[repr(C)]
#[derive(Clone, Copy)]
pub struct Adhesion {
    pub constraints: [TemporaryConstraint; MAX_CONSTRAINTS],
    pub count: u32,
}

// No rows.
impl Default for Adhesion {
    ghost use Rattle.engine_value.specs.Engine.{no_adhesion};

    ghost is_default = { λ a. a ≡ no_adhesion };

    fn default() -> Adhesion {
        Adhesion {
            constraints: [TemporaryConstraint::default(); MAX_CONSTRAINTS],
            count: 0,
        }
    }
}

// The journey's points and the driver skips of each, its segments, and the groups above. The skips in an array of their own, so that the points
// stay as the load left them.
#[repr(C)]
#[derive(Clone, Copy)]
pub struct Engine {
    pub points: [Point; MAX_POINTS],
    pub skips: [bool; MAX_POINTS],
    pub segments: [Segment; MAX_SEGMENTS],
    pub load: Load,
    pub train: Train,
    pub progress: Progress,
    pub inputs: Inputs,
    pub control: Control,
    pub traction: Traction,
    pub adhesion: Adhesion,
}

// The journey in force, where it is kept: in an engine, or in what a load brings. Whole arrays, since both keep them so and a load copies them
// whole; the counts are the load's.
#[derive(Clone, Copy)]
pub struct Route<'a> {
    pub load: Load,
    pub points: &'a [Point; MAX_POINTS],
    pub segments: &'a [Segment; MAX_SEGMENTS],
}

impl Engine {
    ghost use Rattle.engine_value.specs.View.{route_view};
    ghost use Rattle.engine_value.specs.Engine.{route_in};

    // The journey in force.
    pub fn route(&self) -> Route<'_>
        ensures { route_view result ≡ route_in self.now }
    {
        Route {
            load: self.load,
            points: &self.points,
            segments: &self.segments,
        }
    }
}

// The fresh engine, under the name that the specification gives it.
pub fn fresh() -> Engine
    ensures { result ≡ fresh }
{
    Engine {
        points: [Point::default(); MAX_POINTS],
        skips: [false; MAX_POINTS],
        segments: [Segment::default(); MAX_SEGMENTS],
        load: Load::default(),
        train: Train::default(),
        progress: Progress::default(),
        inputs: Inputs::default(),
        control: Control::default(),
        traction: Traction::default(),
        adhesion: Adhesion::default(),
    }
}
