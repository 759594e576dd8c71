// Recorder packets 61, 62, 64, 65 and 68: their values, their sizes and the ranges of their fields.
#![tactic(auto)]

ghost use Rattle.std.specs.Prelude.{◌≡◌, ◌≤◌, ◌*◌, ◌&&◌, length};
ghost use Rattle.adhesion.specs.View.{constraints_view};
ghost use Rattle.packets.specs.Packets.{size_at, front_size};

use adhesion::{CONSTRAINT_SIZE, Constraints};
use status_word::OperationalConditions;
use wire::{Number, Refusal};

// Statuses, alignments, Q_EOJ_REACHED, states and conditions stand in the packets as bytes: a packet has whatever its reader found or its writer was given, and `fits` looks at
// the ranges afterwards.

// SUBSET-140, Table 3. NID_C and NID_SP each by itself, as in the C interface.
#[repr(C)]
#[derive(Clone, Copy, Default)]
pub struct Header {
    pub nidc: u16,
    pub nidsp: u32,
    pub offset: u32,
    pub speed: u16,
    pub operational: u32,
}

// Packet 62: SUBSET-140, Table 5. `q_eoj_reached` is Q_EOJ_REACHED, `stopping` the stopping data.
#[repr(C)]
#[derive(Clone, Copy)]
pub struct TimingPoint {
    pub header: Header,
    pub nidc: u16,
    pub nidtp: u32,
    pub q_eoj_reached: u8,
    pub alignment: u8,
    pub status: u8,
    pub stopping: u8,
}

// The statuses of a packet 62 that the unit writes.
#[derive(Clone, Copy, PartialEq, Eq)]
pub enum PointStatus {
    Passed = 0,
    Stopped = 1,
    Departed = 2,
    Held = 3,
    HoldRevoked = 4,
    Skipped = 5,
    Revoked = 6,
    TracksideSkip = 7,
    TracksideRevoked = 8,
}

impl From<PointStatus> for u8 {
    ghost use Rattle.packets.specs.View.{status_number};

    ghost from_gives = { λ s n. n ≡ status_number s };

    fn from(s: PointStatus) -> u8 {
        s as u8
    }
}

// The statuses of a packet 65: a journey was accepted, or a load's profiles were turned down.
#[derive(Clone, Copy)]
pub enum JpStatus {
    Accepted = 0,
    TurnedDown = 1,
}

impl From<JpStatus> for u8 {
    ghost use Rattle.packets.specs.View.{jp_status_number};

    ghost from_gives = { λ s n. n ≡ jp_status_number s };

    fn from(s: JpStatus) -> u8 {
        s as u8
    }
}

// Packet 65: SUBSET-140, Table 8.
#[repr(C)]
#[derive(Clone, Copy)]
pub struct JpReceived {
    pub header: Header,
    pub nidc: u16,
    pub atots: u16,
    pub date: u16,
    pub seconds: u32,
    pub counter: u8,
    pub status: u8,
}

// Packet 68: SUBSET-140, Table 11.
#[repr(C)]
#[derive(Clone, Copy)]
pub struct AtoStatus {
    pub header: Header,
    pub state: u8,
    pub conditions: OperationalConditions,
}

// The content of packet 61: SUBSET-140, Table 4. M_ATO_RTBRq, an INT16 there, as its unsigned 16 bits.
#[repr(C)]
#[derive(Clone, Copy)]
pub struct Requested {
    pub m_ato_trabrrq: u8,
    pub m_ato_locobrrq: u8,
    pub q_ato_suptb: u8,
    pub m_ato_rtbrq: u16,
}

impl Requested {
    ghost use Rattle.layout.specs.Layout.{values_at};
    ghost use Rattle.packets.specs.Layouts.{content61, requested_of};

    // The content at a position; bytes past the end count as 0.
    #[tactic(auto, using(crate::proofs::PacketLaws::requested_from), unfolding(layout::specs::Layout::values_at))]
    pub fn get(s: &[u8], at: usize) -> Requested
        ensures { result ≡ requested_of (values_at content61 at s.now) }
    {
        let content = s.get(at..).unwrap_or_default();
        Requested {
            m_ato_trabrrq: u8::get(content, 0),
            m_ato_locobrrq: u8::get(content, 1),
            q_ato_suptb: u8::get(content, 2),
            m_ato_rtbrq: u16::get(content, 3),
        }
    }
}

// Packet 61, Traction_Brake_Pneumatic_Brake_Requested.
#[repr(C)]
#[derive(Clone, Copy)]
pub struct TractionBrake {
    pub header: Header,
    pub requested: Requested,
}

// Packet 64, Adhesion_System: SUBSET-140, Table 7. Its rows are lent: an enum holds no array.
#[derive(Clone, Copy)]
pub struct AdhesionSystem<'a> {
    pub header: Header,
    pub constraints: Constraints<'a>,
}

#[derive(Clone, Copy)]
pub enum Packet<'a> {
    TimingPoint(TimingPoint),
    JpReceived(JpReceived),
    AtoStatus(AtoStatus),
    TractionBrake(TractionBrake),
    AdhesionSystem(AdhesionSystem<'a>),
}

// The kinds of packets by their numbers. An enum beside `Packet`: the number is known before the values are read.
#[derive(Clone, Copy)]
pub enum PacketKind {
    TractionBrake = 61,
    TimingPoint = 62,
    AdhesionSystem = 64,
    JpReceived = 65,
    AtoStatus = 68,
}

impl From<PacketKind> for u8 {
    ghost use Rattle.packets.specs.View.{kind_view};

    ghost from_gives = { λ k n. n ≡ (kind_view k).number };

    fn from(k: PacketKind) -> u8 {
        k as u8
    }
}

impl TryFrom<u8> for PacketKind {
    ghost use Rattle.packets.specs.Layouts.{kinds};
    ghost use Rattle.packets.specs.Packets.{kind_from};
    ghost use Rattle.packets.specs.View.{kind_view};
    ghost use Rattle.wire.specs.View.{judged_by};

    type Error = Refusal;

    ghost try_from_gives = { λ n r. judged_by kind_view r ≡ kind_from kinds n };

    fn try_from(n: u8) -> Result<PacketKind, Refusal> {
        match n {
            61 => Ok(PacketKind::TractionBrake),
            62 => Ok(PacketKind::TimingPoint),
            64 => Ok(PacketKind::AdhesionSystem),
            65 => Ok(PacketKind::JpReceived),
            68 => Ok(PacketKind::AtoStatus),
            _ => Err(Refusal::PacketNumber),
        }
    }
}

// The bytes of rows.
fn rows_size(c: Constraints) -> usize
    ensures value { result ≡ length (constraints_view c.entry) * 16 }
    ensures most { result ≤ 4080 }
{
    usize::from(c.count()) * CONSTRAINT_SIZE
}

impl PacketKind {
    ghost use Rattle.wire.specs.Judged.Judged.{accept};
    ghost use Rattle.packets.specs.Layouts.{kind_size};
    ghost use Rattle.packets.specs.Packets.{size_for};
    ghost use Rattle.packets.specs.View.{kind_view};

    // The bytes of a packet without its rows, as the papers count them: "for 62, 65, 68 .. 25, 29, 19 bytes", "packet 61 has 22 bytes",
    // "packet 64 has 18 bytes and 16 a row".
    pub fn size(self) -> usize
        ensures { result ≡ kind_size (kind_view self) }
    {
        match self {
            PacketKind::TractionBrake => 22,
            PacketKind::TimingPoint => 25,
            PacketKind::AdhesionSystem => 18,
            PacketKind::JpReceived => 29,
            PacketKind::AtoStatus => 19,
        }
    }

    // The bytes of a packet of the kind, with the rows that it has by its bytes.
    fn size_in(self, s: &[u8]) -> usize
        ensures { result ≡ size_for (accept (kind_view self)) s.now }
    {
        match self {
            PacketKind::AdhesionSystem => self.size() + rows_size(Constraints::get(s, 17)),
            PacketKind::TractionBrake
            | PacketKind::TimingPoint
            | PacketKind::JpReceived
            | PacketKind::AtoStatus => self.size(),
        }
    }
}

// NID_C in the content of 65 where the position is not known.
pub const UNKNOWN_NIDC: u16 = 1024;

// The highest values of the packets' fields that are not free (document 01). Engine and journey have equal limits of their own, as layouts of their
// own: packets depends on neither.
const MAX_NIDC: u16 = 1023;

const MAX_OFFSET: u32 = 16777215;

const MAX_ALIGNMENT: u8 = 2;

const MAX_STATUS: u8 = 8;

const MAX_STOPPING: u8 = 127;

const MAX_ATOTS: u16 = 16384;

const MAX_DATE: u16 = 32767;

const MAX_STATE: u8 = 7;

impl Header {
    ghost use Rattle.layout.specs.Layout.{fits};
    ghost use Rattle.packets.specs.Layouts.{header_layout};
    ghost use Rattle.packets.specs.View.{header_view};

    fn fits(self) -> bool
        ensures { result ≡ fits header_layout (header_view self) }
    {
        self.nidc <= MAX_NIDC && self.offset <= MAX_OFFSET
    }
}

impl TimingPoint {
    ghost use Rattle.layout.specs.Layout.{fits};
    ghost use Rattle.packets.specs.Layouts.{content62, stopping_allowed};
    ghost use Rattle.packets.specs.View.{timing_point_view};

    fn content_fits(self) -> bool
        ensures { result ≡ (fits content62 (timing_point_view self) && stopping_allowed (timing_point_view self)) }
    {
        self.nidc <= MAX_NIDC
            && self.q_eoj_reached <= 1
            && self.alignment <= MAX_ALIGNMENT
            && self.status <= MAX_STATUS
            && self.stopping <= MAX_STOPPING
            && (self.status == u8::from(PointStatus::Stopped) || self.stopping == 0)
    }
}

impl JpReceived {
    ghost use Rattle.layout.specs.Layout.{fits};
    ghost use Rattle.packets.specs.Layouts.{content65};
    ghost use Rattle.packets.specs.View.{jp_received_view};

    fn content_fits(self) -> bool
        ensures { result ≡ fits content65 (jp_received_view self) }
    {
        self.nidc <= UNKNOWN_NIDC
            && self.atots <= MAX_ATOTS
            && self.date <= MAX_DATE
            && self.status <= u8::from(JpStatus::TurnedDown)
    }
}

impl AtoStatus {
    ghost use Rattle.layout.specs.Layout.{fits};
    ghost use Rattle.packets.specs.Layouts.{content68};
    ghost use Rattle.packets.specs.View.{ato_status_view};

    fn content_fits(self) -> bool
        ensures { result ≡ fits content68 (ato_status_view self) }
    {
        // One by one by name, as at `OperationalConditions::word`: an array of the nine would only add its indices.
        let c = self.conditions;
        self.state <= MAX_STATE
            && c.etcs_fulfilled <= 1
            && c.no_emergency_brake <= 1
            && c.end_ahead <= 1
            && c.last_ahead <= 1
            && c.profiles_there <= 1
            && c.no_inconsistency <= 1
            && c.located <= 1
            && c.outside_zones <= 1
            && c.data_valid <= 1
    }
}

impl<'a> AdhesionSystem<'a> {
    ghost use Rattle.std.specs.Prelude.{not};
    ghost use Rattle.wire.specs.Lists.{any};
    ghost use Rattle.layout.specs.Body.{body_fits};
    ghost use Rattle.adhesion.specs.Constraints.{constraints_body, reversed};
    ghost use Rattle.adhesion.specs.View.{constraints_values};

    fn content_fits(self) -> bool
        ensures { result ≡ (body_fits constraints_body (constraints_values (constraints_view self.entry.constraints)) && not (any reversed (constraints_view self.entry.constraints))) }
    {
        self.constraints.fit() && !self.constraints.reversed()
    }
}

impl<'a> Packet<'a> {
    ghost use Rattle.packets.specs.View.{header_view, kind_view, packet_view, packet_values};
    ghost use Rattle.packets.specs.Packets.{size_of, packet_fits};

    pub fn kind(self) -> PacketKind
        ensures { kind_view result ≡ (packet_values (packet_view self.entry)).kind }
    {
        match self {
            Packet::TimingPoint(_) => PacketKind::TimingPoint,
            Packet::JpReceived(_) => PacketKind::JpReceived,
            Packet::AtoStatus(_) => PacketKind::AtoStatus,
            Packet::TractionBrake(_) => PacketKind::TractionBrake,
            Packet::AdhesionSystem(_) => PacketKind::AdhesionSystem,
        }
    }

    pub fn header(self) -> Header
        ensures { header_view result ≡ (packet_values (packet_view self.entry)).header }
    {
        match self {
            Packet::TimingPoint(x) => x.header,
            Packet::JpReceived(x) => x.header,
            Packet::AtoStatus(x) => x.header,
            Packet::TractionBrake(x) => x.header,
            Packet::AdhesionSystem(x) => x.header,
        }
    }

    // Its bytes.
    pub fn size(self) -> usize
        ensures value { result ≡ size_of (packet_view self.entry) }
        ensures most { result ≤ 4098 }
    {
        let size = self.kind().size();
        match self {
            Packet::TimingPoint(_) => size,
            Packet::JpReceived(_) => size,
            Packet::AtoStatus(_) => size,
            Packet::TractionBrake(_) => size,
            Packet::AdhesionSystem(x) => size + rows_size(x.constraints),
        }
    }

    // Each value is in its range.
    pub fn fits(self) -> bool
        ensures { result ≡ packet_fits (packet_view self.entry) }
    {
        let header = self.header().fits();
        match self {
            Packet::TimingPoint(x) => header && x.content_fits(),
            Packet::JpReceived(x) => header && x.content_fits(),
            Packet::AtoStatus(x) => header && x.content_fits(),
            // Its content is free.
            Packet::TractionBrake(_) => header,
            Packet::AdhesionSystem(x) => header && x.content_fits(),
        }
    }
}

// The bytes of the packet in front, by its number and what stands behind it; 0 where no packet has that number.
pub fn size_at(s: &[u8]) -> usize
    ensures { result ≡ size_at s.now }
{
    let Some(number) = s.first() else {
        return 0;
    };
    match PacketKind::try_from(*number) {
        Ok(kind) => kind.size_in(s),
        Err(_) => 0,
    }
}

// The bytes of the piece in front: a packet or, where no packet has the number, all that are left.
pub fn front_size(s: &[u8]) -> usize
    ensures { result ≡ front_size s.now }
{
    let size = size_at(s);
    if size == 0 {
        return s.len();
    }
    size.min(s.len())
}
