// The packets of an accepted event, written one behind the other into the output memory.
#![tactic(auto)]

ghost use Rattle.std.specs.Prelude.{◌≡◌, ◌≤◌, ◌-◌, length, option_map};
ghost use Rattle.std.proofs.lemmas.List.Edits.{sets};
ghost use Rattle.engine_value.specs.declared.Engine as engine;
ghost use Rattle.engine_value.specs.declared.Progress as progress;
ghost use Rattle.engine_value.specs.declared.Position as position;
ghost use Rattle.engine_value.specs.Engine as model;
ghost use Rattle.adhesion.specs.View.{constraints_view};
ghost use Rattle.engine_value.specs.Engine.{max_points, route_in};
ghost use Rattle.engine_value.specs.View.{route_view};
ghost use Rattle.packets.specs.Packets.{joined};
ghost use Rattle.timing.specs.Changes.{passings};
ghost use Rattle.call.specs.Packets.{change_in};
ghost use Rattle.packets.specs.View.{packet_view};
ghost use Rattle.position.specs.Standing.{standing};
ghost use Rattle.conditions.specs.Conditions.{end_ahead};
ghost use Rattle.call_values.specs.Packets.{header, country, status_due, timing_point_of, timing_point, traction_brake, adhesion_system, adhesion_systems, ato_status};
ghost use Rattle.trackside.specs.View.{change_of, changes_from};
ghost use Rattle.event_packets.specs.View.{change_view, status_view, jp_received_view, revoked_packet, listed, told_hold, told_view, packets62, packets_view, Put};

use adhesion::{CONSTRAINT_SIZE, Constraints};
use engine_value::{Engine, MAX_POINTS, Point, Progress};
use journey::Head;
use packets::{
    AdhesionSystem, AtoStatus, Header, JpReceived, JpStatus, Packet, PacketKind, PointStatus,
    Requested, TimingPoint, TractionBrake,
};
use position::Place;
use state_codes::State;
use status_word::OperationalConditions;

// A change of the point of an index, and the progress after it. The status is any number, as a packet 62 has it;
// `PointStatus` names those that the unit writes.
#[derive(Clone, Copy)]
pub struct Change {
    pub index: u8,
    pub status: u8,
    pub after: Progress,
}

// What an event changes of the points: first, perhaps, a departure, a skip or its revocation; then the points from `from` to `to`, without that one,
// pass; last, perhaps, a stop is reached, and is held. `from` and `to` are two numbers, since `Range` is not `Copy`.
#[derive(Clone, Copy)]
pub struct Changes {
    pub first: Option<Change>,
    pub from: u8,
    pub to: u8,
    pub last: Option<Change>,
    pub held: Option<Change>,
}

// What a load tells of the journey before it: the stop whose hold it ended, as that journey has it, and of each of its own points the status, where it
// gained or lost the trackside skip. It is lent: `Writes` is moved at every event, and 128 bytes are about all that is moved without memcpy.
#[derive(Clone, Copy)]
pub struct Told {
    pub hold_ended: Option<Point>,
    pub statuses: [Option<PointStatus>; MAX_POINTS],
}

// The head of a journey that was loaded, and the NID_C that its packet 65 tells: a number, for the paper has 1,024 where none is known.
#[derive(Clone, Copy)]
pub struct Received {
    pub head: Head,
    pub nidc: u16,
}

// State, conditions and speed: a packet 68 is written when they change. The state by its byte, since the call's equation holds of engines, too, in
// which it is no state's.
#[derive(Clone, Copy)]
pub struct Status {
    pub state: u8,
    pub conditions: OperationalConditions,
    pub speed: u16,
}

// What an event writes, beside the values of the engine after it, which has the new journey: a packet 65, what a load tells of the journey before it, the
// changes of the points, a packet 61, the rows of a packet 64, and the conditions of a packet 68.
#[derive(Clone, Copy)]
pub struct Writes<'a> {
    pub received: Option<Received>,
    pub told: Option<&'a Told>,
    pub changes: Changes,
    pub requested: Option<Requested>,
    pub constraints: Option<Constraints<'a>>,
    pub status: Option<OperationalConditions>,
}

// ---- the packets, with the header of the engine after the event

pub fn header(e: &Engine) -> Header
    ensures { result ≡ header (route_in e.now) e.now.train.position }
{
    let x = e.train.position;
    Header {
        nidc: x.nidc,
        nidsp: x.nidsp,
        offset: x.offset,
        speed: x.speed,
        operational: e.load.operational,
    }
}

// Packet 62 of a point, with the progress after its change.
fn point_packet<'a>(e: &Engine, p: Point, status: u8, after: Progress) -> Packet<'a>
    ensures { packet_view result ≡ timing_point_of (header (route_in e.now) e.now.train.position) p status (end_ahead e.now.load (standing after)) }
{
    Packet::TimingPoint(TimingPoint {
        header: header(e),
        nidc: p.nidc,
        nidtp: p.nidtp,
        q_eoj_reached: u8::from(conditions::end_ahead(e.load, after)),
        alignment: p.alignment,
        status,
        stopping: if status == u8::from(PointStatus::Stopped) {
            p.stopping
        } else {
            0
        },
    })
}

// Packet 62 for a change of a point.
#[tactic(auto, unfolding(call_values::specs::Packets::timing_point))]
fn timing_point<'a>(e: &Engine, c: Change) -> Packet<'a>
    ensures { packet_view result ≡ timing_point (route_in e.now) e.now.train.position (change_in (route_in e.now) (change_view c)) }
{
    let p = position::point(e.route(), c.index);
    point_packet(e, p, c.status, c.after)
}

// The change that a load tells of point k, by its status.
fn told_change(k: u8, status: Option<PointStatus>, after: Progress) -> Option<Change>
    ensures { option_map change_view result ≡ change_of after (k, status) }
{
    status.map(|status| Change {
        index: k,
        status: u8::from(status),
        after,
    })
}

// Packet 62 for the hold at a point, revoked by a load.
#[tactic(auto, unfolding(call_values::specs::Packets::timing_point))]
fn hold_revoked<'a>(e: &Engine, p: Point) -> Packet<'a>
    ensures { packet_view result ≡ revoked_packet e.now p }
{
    point_packet(e, p, u8::from(PointStatus::HoldRevoked), e.progress)
}

// NID_C of the position, 1,024 unless it is known.
pub fn country(p: Place) -> u16
    ensures { result ≡ country (route_view p.entry.journey) p.entry.position }
{
    p.front().map_or(packets::UNKNOWN_NIDC, |_| p.position.nidc)
}

// Packet 65 for an accepted load.
fn jp_received<'a>(e: &Engine, r: Received) -> Packet<'a>
    ensures { packet_view result ≡ jp_received_view e.now r }
{
    Packet::JpReceived(JpReceived {
        header: header(e),
        nidc: r.nidc,
        atots: r.head.atots,
        date: r.head.date,
        seconds: r.head.seconds,
        counter: r.head.counter,
        status: u8::from(JpStatus::Accepted),
    })
}

// Packet 61 for a traction request.
#[tactic(auto, unfolding(call_values::specs::Packets::traction_brake))]
fn traction_brake<'a>(e: &Engine, requested: Requested) -> Packet<'a>
    ensures { packet_view result ≡ traction_brake (route_in e.now) e.now.train.position requested }
{
    Packet::TractionBrake(TractionBrake {
        header: header(e),
        requested,
    })
}

// Packet 64 for rows of slippery rail.
#[tactic(auto, unfolding(call_values::specs::Packets::adhesion_system))]
fn adhesion_system<'a>(e: &Engine, constraints: Constraints<'a>) -> Packet<'a>
    ensures { packet_view result ≡ adhesion_system (route_in e.now) e.now.train.position (constraints_view constraints.entry) }
{
    Packet::AdhesionSystem(AdhesionSystem {
        header: header(e),
        constraints,
    })
}

// The bytes of a packet 64, where there is one.
#[tactic(auto, using(crate::proofs::Stored::size_64))]
fn adhesion_size(c: Option<Constraints>) -> usize
    ensures value { (j : model.Route) (x : position.Position) → result ≡ length (joined (adhesion_systems j x (option_map constraints_view c.entry))) }
    ensures most { result ≤ 4098 }
{
    let Some(c) = c else {
        return 0;
    };
    PacketKind::AdhesionSystem.size() + CONSTRAINT_SIZE * usize::from(c.count())
}

// Packet 68 with the engine's state.
#[tactic(auto, unfolding(call_values::specs::Packets::ato_status))]
fn ato_status<'a>(e: &Engine, conditions: OperationalConditions) -> Packet<'a>
    ensures { packet_view result ≡ ato_status (route_in e.now) e.now.train.position e.now.control.state conditions }
{
    Packet::AtoStatus(AtoStatus {
        header: header(e),
        state: e.control.state,
        conditions,
    })
}

// A packet 68 is written.
#[tactic(auto, unfolding(call_values::specs::Packets::status_due))]
pub fn status_due(before: Status, after: Status) -> bool
    ensures { result ≡ status_due (status_view before) (status_view after) }
{
    after.state != before.state
        || after.conditions != before.conditions
        || (before.speed == 0 && after.speed != 0 && after.state != u8::from(State::EG))
}

// The stop whose hold a load ended.
fn hold_ended(t: Option<&Told>) -> Option<Point>
    ensures { result ≡ told_hold t.entry }
{
    t.and_then(|t| t.hold_ended)
}

// How many points a load tells of.
fn told_count(t: Option<&Told>) -> usize
    ensures value { (p : progress.Progress) → result ≡ length (told_view p t.entry) }
    ensures most { result ≤ max_points }
{
    let Some(t) = t else {
        return 0;
    };
    t.statuses.iter().filter(|s| matches!(s, Some(_))).count()
}

// How many bytes they take.
#[tactic(auto, using(crate::proofs::Stored::size_in))]
pub fn size(w: &Writes) -> usize
    ensures { (e : engine.Engine) → result ≡ length (joined (packets_view e w.now)) }
{
    let c = w.changes;
    let passed = usize::from(c.to.saturating_sub(c.from));
    let stopped = usize::from(c.last.is_some()) + usize::from(c.held.is_some());
    let changed = usize::from(c.first.is_some()) + passed + stopped;
    let points = usize::from(hold_ended(w.told).is_some()) + told_count(w.told) + changed;
    PacketKind::JpReceived.size() * usize::from(w.received.is_some())
        + PacketKind::TimingPoint.size() * points
        + PacketKind::TractionBrake.size() * usize::from(w.requested.is_some())
        + adhesion_size(w.constraints)
        + PacketKind::AtoStatus.size() * usize::from(w.status.is_some())
}

// ---- writing

// The output memory, and the position behind what is written.
#[derive(Drop)]
struct Output<'a> {
    memory: &'a mut [u8],
    at: usize,
}

impl<'a> Output<'a> {
    // A packet, where there is one.
    #[tactic(auto, using(crate::proofs::Stored::put_one))]
    fn put(&mut self, p: Option<Packet>)
        ensures same_reference { self.new.memory.ghost_name ≡ self.old.memory.ghost_name }
        ensures put { Put self.old.at (listed (option_map packet_view p.entry)) self.old.memory.now self.new.memory.now self.new.at }
    {
        let Some(p) = p else {
            return;
        };
        let start = self.at.min(self.memory.len());
        packet_writer::put_packet(p, self.memory, self.at);
        self.at = start + p.size();
    }

    // The points that have a status.
    #[tactic(auto, using(crate::proofs::Stored::told_next, crate::proofs::Stored::told_end))]
    fn put_statuses(
        &mut self,
        e: &Engine,
        statuses: &[Option<PointStatus>; MAX_POINTS],
        after: Progress,
    )
        ensures same_reference { self.new.memory.ghost_name ≡ self.old.memory.ghost_name }
        ensures put { Put self.old.at (packets62 e.now (changes_from after 0 statuses.now)) self.old.memory.now self.new.memory.now self.new.at }
    {
        for (k, status) in statuses.iter().enumerate() {
            let c = told_change(k as u8, *status, after);
            self.put(c.map(|c| timing_point(e, c)));
        }
    }

    // Those of which a load tells.
    fn put_told(&mut self, e: &Engine, t: Option<&Told>)
        ensures same_reference { self.new.memory.ghost_name ≡ self.old.memory.ghost_name }
        ensures put { Put self.old.at (packets62 e.now (told_view e.now.progress t.entry)) self.old.memory.now self.new.memory.now self.new.at }
    {
        let Some(t) = t else {
            return;
        };
        self.put_statuses(e, &t.statuses, e.progress);
    }

    // The points from `from` to `to`, without that one, pass.
    #[tactic(auto, using(crate::proofs::Stored::passed_end))]
    fn put_passed(&mut self, e: &Engine, from: u8, to: u8)
        ensures same_reference { self.new.memory.ghost_name ≡ self.old.memory.ghost_name }
        ensures put { Put self.old.at (packets62 e.now (passings (to - from) from)) self.old.memory.now self.new.memory.now self.new.at }
    {
        for k in from..to {
            let after = Progress {
                next: k + 1,
                reached: false,
            };
            let c = Change {
                index: k,
                status: u8::from(PointStatus::Passed),
                after,
            };
            self.put(Some(timing_point(e, c)));
        }
    }
}

// The packets of an event, from the front of the output memory on.
pub fn write(e: &Engine, w: &Writes, out: &mut [u8])
    ensures { out.new ≡ sets out.old 0 (joined (packets_view e.now w.now)) }
{
    let c = w.changes;
    let received = w.received.map(|r| jp_received(e, r));
    let revoked = hold_ended(w.told).map(|p| hold_revoked(e, p));
    let first = c.first.map(|c| timing_point(e, c));
    let last = c.last.map(|c| timing_point(e, c));
    let held = c.held.map(|c| timing_point(e, c));
    let requested = w.requested.map(|r| traction_brake(e, r));
    let constraints = w.constraints.map(|c| adhesion_system(e, c));
    let status = w.status.map(|c| ato_status(e, c));
    let mut output = Output { memory: out, at: 0 };
    output.put(received);
    output.put(revoked);
    output.put_told(e, w.told);
    output.put(first);
    output.put_passed(e, c.from, c.to);
    output.put(last);
    output.put(held);
    output.put(requested);
    output.put(constraints);
    output.put(status);
}
