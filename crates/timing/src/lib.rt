// Timing points: d and margin, the load's target, the steps of a position report.
#![tactic(auto)]

ghost use Rattle.std.specs.Prelude.{◌≡◌, ◌&&◌, ◌-◌, Some, None, MatchOption};
ghost use Rattle.engine_value.specs.View.{route_view};
ghost use Rattle.position.specs.Position.{point_count, point, placed, front_at};
ghost use Rattle.timing.specs.Distance.{back, distance, unskipped, margin, exceeds, exceeds_reach, stops_at, at_stop, leaves};
ghost use Rattle.timing.specs.Load.{put_behind, target_from, target};
ghost use Rattle.timing.specs.Report.{looked_from, following, report_of, no_report};
ghost use Rattle.timing.specs.View.{journey_of, report_view};

use engine_value::{MAX_POINTS, Point, Progress};
use position::{Front, Place};

// A position report, with the train length and the driver skips where they are kept.
#[derive(Clone, Copy)]
pub struct PositionReport<'a> {
    pub place: Place<'a>,
    pub length: u32,
    pub skips: &'a [bool; MAX_POINTS],
}

// What a position report brings: the progress after it, the first point looked at, whether one departed before that, and whether one became
// reached. Points from `from` to the new `next`, without it, are passed. Flags: `from` and `progress` count also where neither stands.
#[derive(Clone, Copy)]
pub struct Reported {
    pub progress: Progress,
    pub from: u8,
    pub departed: bool,
    pub reached: bool,
}

// The driver skips of a load: none.
const NO_SKIPS: [bool; MAX_POINTS] = [false; MAX_POINTS];

// ---- d and margin

// How far behind the front the aligned part of the train is: 0 front, 1 middle, 2 rear. The point has it by number (C layout), and an enum would be
// made only to be matched here.
pub fn back(length: u32, alignment: u8) -> u32
    ensures { result ≡ back length alignment }
{
    match alignment {
        0 => 0,
        1 => length / 2,
        _ => length,
    }
}

// A stop that neither the trackside nor the driver skips.
pub fn unskipped(p: Point, driver: bool) -> bool
    ensures { result ≡ unskipped p driver }
{
    p.stop && !p.trackside && !driver
}

pub fn margin(p: Point, driver: bool) -> u32
    ensures { result ≡ margin p driver }
{
    if unskipped(p, driver) { p.reach } else { 0 }
}

// A point of the journey, and whether the driver skips it.
#[derive(Clone, Copy)]
struct Skippable {
    point: Point,
    skipped: bool,
}

// A position report with the front where its position is known.
#[derive(Clone, Copy)]
struct Located<'a> {
    report: PositionReport<'a>,
    front: Front,
    ghost known: { front_at (journey_of report) report.place.position ≡ Some front.at },
}

impl<'a> Located<'a> {
    fn new(report: PositionReport<'a>) -> Option<Located<'a>>
        ensures { MatchOption result (front_at (journey_of report.entry) report.entry.place.position ≡ None) (λ l. l.report ≡ report.entry) }
    {
        let front = report.place.front()?;
        Some(Located { report, front })
    }

    // d: how far the aligned part of the train is beyond the point.
    fn distance(&self, p: &Point) -> i64
        ensures { result ≡ distance self.now.front.at self.now.report.length p.now }
    {
        self.front.at as i64 - back(self.report.length, p.alignment) as i64 - p.place as i64
    }

    // d > margin
    fn exceeds(&self, p: &Skippable) -> bool
        ensures { result ≡ exceeds self.now.front.at self.now.report.length p.now.point p.now.skipped }
    {
        self.distance(&p.point) > margin(p.point, p.skipped) as i64
    }

    // d > R
    fn exceeds_reach(&self, p: &Point) -> bool
        ensures { result ≡ exceeds_reach self.now.front.at self.now.report.length p.now }
    {
        self.distance(p) > p.reach as i64
    }

    // An unskipped stop at speed 0 with d ≥ −R.
    fn stops_at(&self, p: &Skippable) -> bool
        ensures { result ≡ stops_at self.now.front.at self.now.report.length self.now.report.place.position.speed p.now.point p.now.skipped }
    {
        unskipped(p.point, p.skipped)
            && self.report.place.position.speed == 0
            && self.distance(&p.point) >= -(p.point.reach as i64)
    }

    fn point(&self, k: u8) -> Skippable
        ensures point { result.point ≡ point (journey_of self.now.report) k }
        ensures skipped { result.skipped ≡ (report_view self.now.report).skips k }
    {
        let skips = self.report.skips;
        Skippable {
            point: position::point(self.report.place.journey, k),
            skipped: skips.get(k as usize).copied().unwrap_or(false),
        }
    }

    // Point k is placed and has d > margin.
    #[tactic(auto, unfolding(crate::specs::Distance::beyond))]
    fn passes(&self, k: u8) -> bool
        ensures { result ≡ put_behind (journey_of self.now.report) (report_view self.now.report) k }
    {
        let p = self.point(k);
        p.point.placed && self.exceeds(&p)
    }

    // Point k is placed, and the train stops at it.
    #[tactic(auto, unfolding(crate::specs::Distance::at_stop))]
    fn stops(&self, k: u8) -> bool
        ensures { result ≡ (placed (journey_of self.now.report) k && at_stop (journey_of self.now.report) (report_view self.now.report) k) }
    {
        let p = self.point(k);
        p.point.placed && self.stops_at(&p)
    }

    // Of the points from `from` on, the first that is unplaced or does not pass; where there is none, the number of all.
    fn first_left(&self, from: u8) -> u8
        ensures { result ≡ target_from (journey_of self.now.report) (report_view self.now.report) (point_count (journey_of self.now.report) - from) from }
    {
        let until = position::points_loaded(self.report.place.journey.load);
        (from..until)
            .find(|k| !self.passes(*k))
            .unwrap_or(from.max(until))
    }

    // Points from `from` on pass, up to the first that is unplaced or does not pass; that one may be reached.
    #[tactic(auto, using(crate::proofs::Laws::look_within, crate::proofs::Laws::look_past))]
    fn look(&self, from: u8) -> Progress
        ensures { result ≡ looked_from (journey_of self.now.report) (report_view self.now.report) from }
    {
        let next = self.first_left(from);
        let until = position::points_loaded(self.report.place.journey.load);
        Progress {
            next,
            reached: next < until && self.stops(next),
        }
    }
}

// ---- the load

// The point that a load targets; where it puts all behind, their number.
#[tactic(auto, using(crate::proofs::Laws::target_unknown, crate::proofs::Laws::target_is))]
pub fn target(place: Place, length: u32) -> u8
    ensures { result ≡ target (route_view place.entry.journey) place.entry.position length }
{
    let report = PositionReport {
        place,
        length,
        skips: &NO_SKIPS,
    };
    Located::new(report).map_or(0, |l| l.first_left(0))
}

// ---- the position report

// (b), from point `from` on.
#[tactic(auto, using(crate::proofs::Laws::look_unknown))]
fn look(r: PositionReport, from: u8) -> Progress
    ensures { result ≡ looked_from (journey_of r.entry) (report_view r.entry) from }
{
    let unmoved = Progress {
        next: from,
        reached: false,
    };
    Located::new(r).map_or(unmoved, |l| l.look(from))
}

// The point after one; there is none behind the 64th.
fn following(k: u8) -> u8
    ensures { result ≡ following k }
{
    k.saturating_add(1).min(MAX_POINTS as u8)
}

// Speed above 0, a known position and d > R: so point k, where it is reached, is departed.
#[tactic(auto, unfolding(crate::specs::Distance::leaves))]
fn leaves(r: PositionReport, k: u8) -> bool
    ensures { result ≡ leaves (journey_of r.entry) (report_view r.entry) k }
{
    let moving = 0 < r.place.position.speed;
    let point = position::point(r.place.journey, k);
    moving && Located::new(r).is_some_and(|l| l.exceeds_reach(&point))
}

// A position report: (a), then (b).
#[tactic(auto, unfolding(crate::specs::Report::reported))]
pub fn report(r: PositionReport, p: Progress) -> Reported
    ensures { result ≡ report_of (journey_of r.entry) (report_view r.entry) p }
{
    let departed = p.reached && leaves(r, p.next);
    if p.reached && !departed {
        return no_report(p);
    }
    let from = if departed { following(p.next) } else { p.next };
    let progress = look(r, from);
    Reported {
        progress,
        from,
        departed,
        reached: progress.reached,
    }
}

// Where there is no position report.
pub fn no_report(p: Progress) -> Reported
    ensures { result ≡ no_report p }
{
    Reported {
        progress: p,
        from: p.next,
        departed: false,
        reached: false,
    }
}
