// A segment record of a book: its bytes, and look-ups in it.
#![tactic(auto)]

ghost use Rattle.std.specs.Prelude.{◌≡◌, ◌<◌, ◌≤◌, ℕ, List, Bool, map, length, take};
ghost use Rattle.engine_value.specs.Engine.{max_zones};
ghost use Rattle.fields.specs.Parse.{Reader, listed};
ghost use Rattle.fields.specs.View.{parsed_by};
ghost use Rattle.segment_record.specs.Record.{max_record_points, segment_record, lookup_point, book_point, zone_record};
ghost use Rattle.segment_record.specs.View.{entry_view, point_of, zone_of, point_fits, zone_fits, Takes};

use arrayvec::ArrayVec;
use engine_value::{MAX_NIDC, MAX_NIDTP, MAX_ZONES, Zone};
use fields::{Bears, read_field, read_map};
use wire::{Number, bit};

// "length (4, 1-16,777,214)"
const MAX_LENGTH: u32 = 16777214;

// "points: count (1, 1-16)"
pub const MAX_RECORD_POINTS: usize = 16;

// "reached distance R (2, 0-10,000)"
const MAX_REACH: u16 = 10000;

// A segment record that was read: its numbers, and the bytes of each of its points and zones. NID_C and NID_SP in no struct of their own:
// `Name` is journey's, on which this crate does not depend, and here only `name` reads them, as a pair.
#[derive(Clone, Copy, Default)]
pub struct Entry<'a> {
    pub points: &'a [[u8; 10]],
    pub zones: &'a [[u8; 8]],
    pub nidsp: u32,
    pub length: u32,
    pub nidc: u16,
}

// A point of a record: its name, its place from the segment's start, and the reached distance R.
#[derive(Clone, Copy, Default)]
pub struct BookPoint {
    pub nidtp: u32,
    pub place: u32,
    pub reach: u16,
}

// A segment is named by NID_C and NID_SP together, a point by its NID_TP.
impl<'a> Bears for Entry<'a> {
    type Name = (u16, u32);

    ghost name = { λ e. (e.nidc, e.nidsp) };

    fn name(&self) -> (u16, u32) {
        (self.nidc, self.nidsp)
    }
}

impl Bears for BookPoint {
    type Name = u32;

    ghost name = { λ p. p.nidtp };

    fn name(&self) -> u32 {
        self.nidtp
    }
}

// An item of a record's lists, of K bytes.
trait ListItem<const K: usize>: Copy + Default {
    ghost value_of: { List ℕ → Self };

    ghost fits: { ℕ → Self → Bool };

    ghost reader: { ℕ → Reader Self };

    fn of(bytes: &[u8; K]) -> Self
        ensures { result ≡ value_of bytes.now };

    // Its ranges, in a segment of that length.
    fn fits(self, length: u32) -> bool
        ensures { result ≡ fits length self };
}

impl ListItem<10> for BookPoint {
    ghost value_of = { point_of };

    ghost fits = { point_fits };

    ghost reader = { book_point };

    fn of(bytes: &[u8; 10]) -> BookPoint {
        BookPoint {
            nidtp: u32::get(bytes, 0),
            place: u32::get(bytes, 4),
            reach: u16::get(bytes, 8),
        }
    }

    fn fits(self, length: u32) -> bool {
        self.nidtp <= MAX_NIDTP && self.place <= length && self.reach <= MAX_REACH
    }
}

impl ListItem<8> for Zone {
    ghost value_of = { zone_of };

    ghost fits = { zone_fits };

    ghost reader = { zone_record };

    fn of(bytes: &[u8; 8]) -> Zone {
        Zone {
            start: u32::get(bytes, 0),
            end: u32::get(bytes, 4),
        }
    }

    fn fits(self, length: u32) -> bool {
        self.start <= self.end && self.end <= length
    }
}

// A list that stands only where its bit does: the bytes of each item, each within its ranges. `takes` is no law of `ListItem`: each impl's
// proof would then have to stand in specs/.
#[tactic(auto, unfolding(fields::specs::Parse::listed, fields::specs::Parse::counted))]
fn read_list<T: ListItem<K>, const K: usize>(
    s: &[u8],
    present: bool,
    most: u32,
    length: u32,
) -> Option<(&[[u8; K]], &[u8])>
    requires some { 0 < K }
    requires few { K ≤ 16 }
    requires takes { Takes K (T.fits length) T.value_of (T.reader length) }
    ensures { parsed_by (λ b. map T.value_of b.now) result ≡ listed present most (T.reader length) s.now }
{
    if !present {
        return Some((&[], s));
    }
    let (n, s) = read_field::<u8>(s, 1, most)?;
    let (list, s) = s.split_at_checked(n as usize * K)?;
    let (list, _) = list.as_chunks::<K>();
    let fit = |x: &[u8; K]| -> bool
        ensures { result ≡ T.fits length (T.value_of x.now) }
    { T::of(x).fits(length) };
    list.iter().all(fit).then_some((list, s))
}

#[tactic(auto, using(crate::proofs::Takes::point_takes, crate::proofs::Takes::zone_takes), unfolding(crate::specs::Record::segment_record))]
pub fn read_segment(s: &[u8]) -> Option<(Entry, &[u8])>
    ensures { parsed_by entry_view result ≡ segment_record s.now }
{
    let (map, s) = read_map(s, &[0, 1, 2], &[5, 6, 7])?;
    let (nidc, s) = read_field(s, 0, MAX_NIDC)?;
    let (nidsp, s) = read_field(s, 0, u32::MAX)?;
    let (length, s) = read_field(s, 1, MAX_LENGTH)?;
    let (points, s) = read_list::<BookPoint, 10>(s, bit(map, 3), MAX_RECORD_POINTS as u32, length)?;
    let (zones, s) = read_list::<Zone, 8>(s, bit(map, 4), MAX_ZONES as u32, length)?;
    Some((
        Entry {
            points,
            zones,
            nidsp,
            length,
            nidc,
        },
        s,
    ))
}

// The point of a name.
pub fn find_point(e: Entry, nidtp: u32) -> Option<BookPoint>
    ensures { result ≡ lookup_point nidtp (entry_view e.entry).points }
{
    let points = e.points;
    points
        .iter()
        .map(|x| BookPoint::of(x))
        .find(|p| p.nidtp == nidtp)
}

// The first N items of a list.
fn first_items<T: ListItem<K>, const K: usize, const N: usize>(list: &[[u8; K]]) -> ArrayVec<T, N>
    ensures { result.items ≡ take N (map T.value_of list.now) }
{
    // no `collect`: it answers a `Result`, as if there could be too many
    let mut items = ArrayVec::new();
    for x in list.iter().take(N) {
        items.push(T::of(x));
    }
    items
}

// The points of a record; one that was read has at most 16.
pub fn points_of(e: &Entry) -> ArrayVec<BookPoint, MAX_RECORD_POINTS>
    ensures { result.items ≡ take max_record_points (entry_view e.now).points }
{
    first_items(e.points)
}

// The zones of a record; one that was read has at most four.
pub fn zones_of(e: &Entry) -> ArrayVec<Zone, MAX_ZONES>
    ensures { result.items ≡ take max_zones (entry_view e.now).zones }
{
    first_items(e.zones)
}
