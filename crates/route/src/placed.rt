// A segment of the journey by the book, and its points.
#![tactic(auto)]

ghost use Rattle.std.specs.Prelude.{◌≡◌};
ghost use Rattle.route.specs.Limits.{PlacesFit};

use engine_value::{Point, Segment};
use journey::JourneyPoint;
use segment_record::{Entry, find_point};
use wire::Refusal;

// A segment of the journey, and the book's entry of it, where it has one.
#[derive(Clone, Copy)]
pub struct Placed<'a> {
    pub segment: Segment,
    pub entry: Option<Entry<'a>>,
    ghost fit: { PlacesFit segment entry },
}

// What stands in the empty cells of an ArrayVec. By hand: a struct with a ghost field derives no Default.
impl Default for Placed<'_> {
    ghost use Rattle.engine_value.specs.Engine.{blank_segment};

    ghost is_default = { λ p. p.segment ≡ blank_segment };

    fn default() -> Self {
        Placed {
            segment: Segment::default(),
            entry: None,
        }
    }
}

impl Placed<'_> {
    ghost use Rattle.wire.specs.View.{judged};
    ghost use Rattle.route.specs.Limits.{record_view};
    ghost use Rattle.route.specs.View.{point_on};

    // A point of the journey on this segment; a booked segment has it.
    #[tactic(auto, unfolding(crate::specs::Placing::point_of))]
    pub fn point(&self, p: &JourneyPoint) -> Result<Point, Refusal>
        ensures { judged result ≡ point_on p.now self.now.segment (record_view self.now.entry) }
    {
        let found = self
            .entry
            .map(|e| find_point(e, p.nidtp).ok_or(Refusal::Points))
            .transpose()?;
        let (place, reach) = found.map_or((0, 0), |b| (b.place, u32::from(b.reach)));
        let placed = self.segment.placed;
        Ok(Point {
            nidtp: p.nidtp,
            place: if placed {
                self.segment.start + place
            } else {
                0
            },
            reach: if placed { reach } else { 0 },
            nidc: self.segment.nidc,
            alignment: p.alignment,
            stopping: p.stopping,
            stop: p.stop,
            trackside: p.trackside,
            held: p.held,
            placed,
        })
    }
}
