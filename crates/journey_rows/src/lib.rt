// What the rows 10 to 12 look at in a journey: names, indices, NID_TPs, End of Journey; and 12 over the points as they are placed.
#![tactic(auto)]

ghost use Rattle.std.specs.Prelude.{◌≡◌, eqb};
ghost use Rattle.wire.specs.Lists.{twice, falls, strictly_rises};
ghost use Rattle.journey.specs.View.{value_view};
ghost use Rattle.journey_rows.specs.Rows.{same_name, index_beyond, nidtps, ends, indices, places, ending_of};

use engine_value::Point;
use journey::{Journey, JourneyPoint};

// "10 segment twice"
pub fn name_twice(j: &Journey) -> bool
    ensures { result ≡ twice same_name (value_view j.now).names }
{
    fields::name_twice(j.names())
}

// "11 index beyond"
pub fn index_beyond(j: &Journey) -> bool
    ensures { result ≡ index_beyond (value_view j.now) }
{
    let n = j.names().len();
    j.points().iter().any(|p| n <= p.index as usize)
}

// "11 .. NID_TP twice"
#[tactic(auto, using(crate::proofs::Points::twice_map))]
pub fn nidtp_twice(points: &[JourneyPoint]) -> bool
    ensures { result ≡ twice eqb (nidtps points.now) }
{
    fields::name_twice(points)
}

// How many Ends of Journey there are.
#[tactic(auto, using(crate::proofs::Points::ends_count))]
pub fn ends(points: &[JourneyPoint]) -> usize
    ensures { result ≡ ends points.now }
{
    points.iter().filter(|p| p.end).count()
}

// Where the first End of Journey stands; how many points there are, where there is none.
pub fn ending_of(points: &[JourneyPoint]) -> usize
    ensures { result ≡ ending_of points.now }
{
    points.iter().position(|p| p.end).unwrap_or(points.len())
}

// "12 index falls"
pub fn index_falls(points: &[JourneyPoint]) -> bool
    ensures { result ≡ falls (indices points.now) }
{
    !points.is_sorted_by(|p, q| p.index <= q.index)
}

// "12 .. or placed points do not strictly rise"
pub fn places_rise(points: &[Point]) -> bool
    ensures { result ≡ strictly_rises (places points.now) }
{
    points
        .iter()
        .filter(|p| p.placed)
        .map(|p| p.place)
        .is_sorted_by(|a, b| a < b)
}
