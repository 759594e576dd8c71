// Skips by the trackside: which points of a new journey gained or lost the trackside skip.
#![tactic(auto)]

ghost use Rattle.std.specs.Prelude.{◌≡◌};
ghost use Rattle.wire.specs.Lists.{tabulate};
ghost use Rattle.engine_value.specs.Engine.{max_points};
ghost use Rattle.engine_value.specs.View.{route_view};
ghost use Rattle.trackside.specs.View.{has, status_of, status_at};

use engine_value::{MAX_POINTS, Point, Route};
use packets::PointStatus;
use std::array;

// The journey has a point of that NID_TP which trackside skips, or does not skip.
fn has(j: Route, nidtp: u32, skipped: bool) -> bool
    ensures { result ≡ has (route_view j.entry) nidtp skipped }
{
    let points = j.points;
    points
        .iter()
        .take(position::points_loaded(j.load) as usize)
        .any(|q| q.nidtp == nidtp && q.trackside == skipped)
}

// The status of the packet 62 that tells of a point of the new journey: it gained the trackside skip, or lost it.
fn status_of(old: Route, p: Point) -> Option<PointStatus>
    ensures { result ≡ status_of (route_view old.entry) p }
{
    let status = if p.trackside {
        PointStatus::TracksideSkip
    } else {
        PointStatus::TracksideRevoked
    };
    has(old, p.nidtp, !p.trackside).then_some(status)
}

// That of point k, and none behind the count.
fn status_at(old: Route, new: Route, k: usize) -> Option<PointStatus>
    ensures { result ≡ status_at (route_view old.entry) (route_view new.entry) k }
{
    if k < position::points_loaded(new.load) as usize {
        status_of(old, position::point(new, k as u8))
    } else {
        None
    }
}

// Those of 64 points.
pub fn compare(old: Route, new: Route) -> [Option<PointStatus>; MAX_POINTS]
    ensures { result ≡ tabulate max_points (status_at (route_view old.entry) (route_view new.entry)) }
{
    array::from_fn(|k| status_at(old, new, k))
}
