// Journeys: read whole (row 9).
#![tactic(auto)]

ghost use Rattle.std.specs.Prelude.{◌≡◌, ◌≤◌, length};
ghost use Rattle.engine_value.specs.Engine.{max_points, max_segments};
ghost use Rattle.wire.specs.View.{judged_by};
ghost use Rattle.fields.specs.View.{parsed, parsed_by};
ghost use Rattle.journey.specs.Journey.{head_record, journey_record, journey_value};
ghost use Rattle.journey.specs.View.{value_view};

use arrayvec::ArrayVec;
use engine_value::{MAX_NIDC, MAX_NIDTP, MAX_POINTS, MAX_SEGMENTS, NO_OPERATIONAL};
use fields::{Bears, Item, read_counted, read_field, read_map, read_optional_wide};
use wire::{Refusal, bit};

// "date (2, 0-32,767)"
const MAX_DATE: u32 = 32767;

// "NID_ATOTS (2, 0-16,383; absent means 16,384)"
const MAX_ATOTS: u32 = 16383;

pub const NO_ATOTS: u16 = 16384;

// "alignment (1: 0 front, 1 middle, 2 rear; absent means 0)". A point has it as a byte, as the engine's C layout does:
// an enum would be made here and unmade there.
const FRONT: u32 = 0;

const MAX_ALIGNMENT: u32 = 2;

// "stopping data (1, 0-127; absent means 0)"
const MAX_STOPPING: u32 = 127;

// The name of a segment.
#[derive(Clone, Copy, Default, PartialEq, Eq)]
pub struct Name {
    pub nidc: u16,
    pub nidsp: u32,
}

// A timing point as the journey has it; `index` is that of its segment.
#[derive(Clone, Copy, Default)]
pub struct JourneyPoint {
    pub nidtp: u32,
    pub index: u8,
    pub alignment: u8,
    pub stopping: u8,
    pub stop: bool,
    pub trackside: bool,
    pub end: bool,
    pub held: bool,
}

// NID_OPERATIONAL, the stamp and NID_ATOTS.
#[derive(Clone, Copy)]
pub struct Head {
    pub operational: u32,
    pub date: u16,
    pub seconds: u32,
    pub counter: u8,
    pub atots: u16,
}

// A journey that was read: a value that can be copied, which it could not be with an ArrayVec in it. Behind the counts
// stand blanks.
#[derive(Clone, Copy)]
pub struct Journey {
    pub names: [Name; MAX_SEGMENTS],
    pub points: [JourneyPoint; MAX_POINTS],
    pub head: Head,
    pub name_count: u8,
    pub point_count: u8,
}

impl Journey {
    // The names of its segments, in order.
    pub fn names(&self) -> &[Name]
        ensures value { result.now ≡ (value_view self.now).names }
        ensures fits { length result.now ≤ max_segments }
    {
        &self.names[..MAX_SEGMENTS.min(self.name_count as usize)]
    }

    // Its timing points, in order.
    pub fn points(&self) -> &[JourneyPoint]
        ensures value { result.now ≡ (value_view self.now).points }
        ensures fits { length result.now ≤ max_points }
    {
        &self.points[..MAX_POINTS.min(self.point_count as usize)]
    }
}

// A segment's name is itself; a point is named by its NID_TP.
impl Bears for Name {
    type Name = Name;

    ghost name = { λ n. n };

    fn name(&self) -> Name {
        *self
    }
}

impl Bears for JourneyPoint {
    type Name = u32;

    ghost name = { λ p. p.nidtp };

    fn name(&self) -> u32 {
        self.nidtp
    }
}

// The layouts of the items of its two lists.
impl Item for Name {
    ghost use Rattle.journey.specs.Journey.{name_record};

    ghost reader = { name_record };

    #[tactic(auto, unfolding(crate::specs::Journey::name_record))]
    fn read(s: &[u8]) -> Option<(Name, &[u8])> {
        let (nidc, s) = read_field(s, 0, MAX_NIDC)?;
        let (nidsp, s) = read_field(s, 0, u32::MAX)?;
        Some((Name { nidc, nidsp }, s))
    }
}

impl Item for JourneyPoint {
    ghost use Rattle.journey.specs.Journey.{point_record};

    ghost reader = { point_record };

    #[tactic(auto, unfolding(crate::specs::Journey::point_record))]
    fn read(s: &[u8]) -> Option<(JourneyPoint, &[u8])> {
        let (map, s) = read_map(s, &[0, 1], &[])?;
        if (bit(map, 5) || bit(map, 7)) && !bit(map, 4) {
            return None;
        }
        let (nidtp, s) = read_field(s, 0, MAX_NIDTP)?;
        let (index, s) = read_field(s, 0, 255)?;
        let (alignment, s) = read_optional_wide::<u8>(s, bit(map, 2), FRONT, 0, MAX_ALIGNMENT)?;
        let (stopping, s) = read_optional_wide::<u8>(s, bit(map, 3), 0, 0, MAX_STOPPING)?;
        let point = JourneyPoint {
            nidtp,
            index,
            alignment: alignment as u8,
            stopping: stopping as u8,
            stop: bit(map, 4),
            trackside: bit(map, 5),
            end: bit(map, 6),
            held: bit(map, 7),
        };
        Some((point, s))
    }
}

// The map and the fields before the segments.
#[tactic(auto, unfolding(crate::specs::Journey::head_record))]
fn read_head(s: &[u8]) -> Option<(Head, &[u8])>
    ensures { parsed result ≡ head_record s.now }
{
    let (map, s) = read_map(s, &[1, 3, 4], &[5, 6, 7])?;
    let (operational, s) = read_optional_wide::<u32>(s, bit(map, 0), NO_OPERATIONAL, 0, u32::MAX)?;
    let (date, s) = read_field(s, 0, MAX_DATE)?;
    let (seconds, s) = read_field(s, 0, u32::MAX)?;
    let (counter, s) = read_field(s, 0, 255)?;
    let (atots, s) = read_optional_wide::<u16>(s, bit(map, 2), NO_ATOTS as u32, 0, MAX_ATOTS)?;
    let head = Head {
        operational,
        date,
        seconds,
        counter,
        atots: atots as u16,
    };
    Some((head, s))
}

// A journey of these lists.
fn journey_of(
    head: Head,
    listed: &ArrayVec<Name, MAX_SEGMENTS>,
    visited: &ArrayVec<JourneyPoint, MAX_POINTS>,
) -> Journey
    ensures { value_view result ≡ record { head = head; names = listed.now.items; points = visited.now.items } }
{
    let name_count = listed.len();
    let mut names = [Name::default(); MAX_SEGMENTS];
    names[..name_count].copy_from_slice(listed.as_slice());
    let point_count = visited.len();
    let mut points = [JourneyPoint::default(); MAX_POINTS];
    points[..point_count].copy_from_slice(visited.as_slice());
    Journey {
        names,
        points,
        head,
        name_count: name_count as u8,
        point_count: point_count as u8,
    }
}

#[tactic(auto, unfolding(crate::specs::Journey::journey_record))]
fn read_whole(s: &[u8]) -> Option<(Journey, &[u8])>
    ensures { parsed_by value_view result ≡ journey_record s.now }
{
    let (head, s) = read_head(s)?;
    let (names, s) = read_counted(s)?;
    let (points, s) = read_counted(s)?;
    Some((journey_of(head, &names, &points), s))
}

// A journey to the last byte of the slice. `inline(never)`, as at each step of a load: they take the same stack in
// turn.
#[inline(never)]
pub fn read_journey(s: &[u8]) -> Result<Journey, Refusal>
    ensures { judged_by value_view result ≡ journey_value s.now }
{
    let (journey, rest) = read_whole(s).ok_or(Refusal::JourneyForm)?;
    if rest.is_empty() {
        Ok(journey)
    } else {
        Err(Refusal::JourneyForm)
    }
}
