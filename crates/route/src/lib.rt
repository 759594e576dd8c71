// Journeys against a book (10 to 12), and what a load takes from both.
#![tactic(auto)]

ghost use Rattle.std.specs.Prelude.{◌≡◌};
ghost use Rattle.std.specs.Option.{is_some, unwrap_or};
ghost use Rattle.wire.specs.View.{judged, judged_by};
ghost use Rattle.engine_value.specs.Engine.{max_segments, max_zones, filled, blank_segment, blank_zone};
ghost use Rattle.book.specs.View.{book_view};
ghost use Rattle.journey.specs.View.{value_view};
ghost use Rattle.route.specs.Limits.{Limits, OnSome, Sound, record_view};
ghost use Rattle.route.specs.Placing.{segment_of, segments_of};
ghost use Rattle.route.specs.Route.{load_group, load_of};
ghost use Rattle.route.specs.View.{loaded_view, load_for, PlacingRead, points_for};

mod placed;

use arrayvec::ArrayVec;
use book::Book;
use engine_value::{Load, MAX_POINTS, MAX_SEGMENTS, MAX_ZONES, Point, Route, Segment, Zone};
use journey::{Head, Journey, Name};
use placed::Placed;
use segment_record::{Entry, zones_of};
use std::array;
use wire::Refusal;

// What a load takes; in arrays, as the engine keeps them in the host's memory.
#[derive(Clone, Copy)]
pub struct Loaded {
    pub load: Load,
    pub points: [Point; MAX_POINTS],
    pub segments: [Segment; MAX_SEGMENTS],
    pub head: Head,
}

impl Loaded {
    ghost use Rattle.engine_value.specs.View.{route_view};

    // The journey that it brings. A twin of `Engine::route`: C layout has the skips between points and segments there, so no struct of these
    // three serves both.
    pub fn route(&self) -> Route<'_>
        ensures { route_view result ≡ (loaded_view self.now).route }
    {
        Route {
            load: self.load,
            points: &self.points,
            segments: &self.segments,
        }
    }
}

// The zones of a record as the engine keeps them: an array of C layout, blank beyond them.
fn filled(zones: &[Zone]) -> [Zone; MAX_ZONES]
    ensures { result ≡ filled max_zones blank_zone zones.now }
{
    array::from_fn(|k| zones.get(k).copied().unwrap_or_default())
}

// A segment of the journey by the book's entry; it is placed where it has a start.
#[tactic(auto, unfolding(crate::specs::Placing::segment_of))]
fn segment_of(n: &Name, start: Option<u32>, entry: Option<Entry>) -> Segment
    ensures { OnSome Limits (record_view entry.entry) → result ≡ segment_of n.now (is_some start) (unwrap_or start 0) (record_view entry.entry) }
{
    let segment = Segment {
        nidsp: n.nidsp,
        start: start.unwrap_or(0),
        nidc: n.nidc,
        placed: start.is_some(),
        ..Segment::default()
    };
    let Some(e) = entry else {
        return segment;
    };
    let zones = zones_of(&e);
    Segment {
        length: e.length,
        zone_count: zones.len() as u32,
        zones: filled(zones.as_slice()),
        booked: true,
        ..segment
    }
}

// The journey's numbers.
#[tactic(auto, using(journey_rows::proofs::Points::ending_within))]
fn load_of(j: &Journey) -> Load
    ensures { result ≡ load_group (value_view j.now) }
{
    Load {
        operational: j.head.operational,
        valid: true,
        ending: journey_rows::ending_of(j.points()) as u8,
        point_count: j.points().len() as u8,
        segment_count: j.names().len() as u8,
    }
}

// A journey, a book, and each segment of the journey by the book, of which the ghost field speaks.
#[derive(Drop)]
struct Placings<'a> {
    journey: &'a Journey,
    book: &'a Book<'a>,
    segments: ArrayVec<Placed<'a>, MAX_SEGMENTS>,
    ghost read: { PlacingRead (book_view book.now) (value_view journey.now).names segments.items },
}

impl<'a> Placings<'a> {
    // The lengths of a book that was read add up within four bytes.
    #[inline(never)]
    fn new(journey: &'a Journey, book: &'a Book<'a>) -> Placings<'a>
        requires { Sound (book_view book.now) }
        ensures journey { result.journey.now ≡ journey.now }
        ensures book { result.book.now ≡ book.now }
    {
        let mut segments = ArrayVec::new();
        let mut start = Some(0);
        let names = journey.names();
        for name in names {
            let entry = book::find(book, name.nidc, name.nidsp);
            let segment = segment_of(name, entry.and(start), entry);
            start = segment.placed.then_some(segment.start + segment.length);
            segments.push(Placed { segment, entry });
        }
        Placings {
            journey,
            book,
            segments,
        }
    }

    // Row 11, and each point of the journey on its segment.
    #[inline(never)]
    fn points(&self) -> Result<[Point; MAX_POINTS], Refusal>
        ensures { judged result ≡ points_for (book_view self.now.book.now) (value_view self.now.journey.now) }
    {
        let j = self.journey;
        let from = j.points();
        if journey_rows::index_beyond(j)
            || journey_rows::nidtp_twice(from)
            || journey_rows::ends(from) != 1
        {
            return Err(Refusal::Points);
        }
        let mut points = [Point::default(); MAX_POINTS];
        let on = self.segments.as_slice();
        // no `from_fn`: a row may refuse a point; by the index: of what an adapter of iter_mut leaves, the library says nothing
        for (k, p) in from.iter().enumerate() {
            points[k] = on[p.index as usize].point(p)?;
        }
        Ok(points)
    }

    // The array that a load brings. Not by `filled`: its cells are `Placed`, of which one field is kept.
    fn segments(&self) -> [Segment; MAX_SEGMENTS]
        ensures { result ≡ filled max_segments blank_segment (segments_of (book_view self.now.book.now) (value_view self.now.journey.now).names) }
    {
        let placed = self.segments.as_slice();
        array::from_fn(|k| placed.get(k).copied().unwrap_or_default().segment)
    }

    // The rows 10 to 12 in their order.
    #[tactic(auto, using(crate::proofs::Rows::row_10))]
    #[inline(never)]
    fn load(&self) -> Result<Loaded, Refusal>
        ensures { judged_by loaded_view result ≡ load_for (book_view self.now.book.now) (value_view self.now.journey.now) }
    {
        let j = self.journey;
        if journey_rows::name_twice(j) {
            return Err(Refusal::SegmentTwice);
        }
        let points = self.points()?;
        let from = j.points();
        if journey_rows::index_falls(from) || !journey_rows::places_rise(&points[..from.len()]) {
            return Err(Refusal::Order);
        }
        Ok(Loaded {
            load: load_of(j),
            points,
            segments: self.segments(),
            head: j.head,
        })
    }
}

// The journey and the book that come with a load: the book's rows, then the journey's. Its steps are `inline(never)`: they take the same stack in turn.
#[tactic(auto, using(crate::proofs::Rows::no_book, crate::proofs::Rows::no_journey, crate::proofs::Rows::both))]
pub fn load_route(journey: &[u8], book: &[u8]) -> Result<Loaded, Refusal>
    ensures { judged_by loaded_view result ≡ load_of journey.now book.now }
{
    let b = book::read_book(book)?;
    let j = journey::read_journey(journey)?;
    Placings::new(&j, &b).load()
}
