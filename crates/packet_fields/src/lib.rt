// What the packet reader answers, as one struct of numbers.
#![tactic(auto)]

ghost use Rattle.std.specs.Prelude.{◌≡◌, true};
ghost use Rattle.wire.specs.Refusals.{number_of};
ghost use Rattle.packets.specs.Layouts.{header_of};
ghost use Rattle.packets.specs.View.{packet_view, packet_values};
ghost use Rattle.packets.specs.Packets.{size_of, packet_fits, packet_of};
ghost use Rattle.packet_fields.specs.View.{refused_view, begun_view, packet_fields_view, fields_view, row_in, row_view};

use adhesion::TemporaryConstraint;
use packets::{Header, Packet};
use wire::Refusal;

// A packet that was read: its number as `kind`, its bytes as `size`, and its values. Else the number of the row that refuses. All else is 0: one
// struct for both and for each kind, since an exported function can hand over no enum.
#[repr(C)]
#[derive(Clone, Copy, Default)]
pub struct PacketFields {
    pub accepted: bool,
    pub number: u8,
    pub kind: u8,
    pub size: usize,
    pub header: Header,
    pub nidc: u16,
    pub nidtp: u32,
    pub q_eoj_reached: u8,
    pub alignment: u8,
    pub status: u8,
    pub stopping: u8,
    pub atots: u16,
    pub date: u16,
    pub seconds: u32,
    pub counter: u8,
    pub state: u8,
    pub conditions: u16,
    pub m_ato_trabrrq: u8,
    pub m_ato_locobrrq: u8,
    pub q_ato_suptb: u8,
    pub m_ato_rtbrq: u16,
    pub constraint_count: u8,
}

fn refused(r: Refusal) -> PacketFields
    ensures { result ≡ refused_view (number_of r) }
{
    PacketFields {
        number: u8::from(r),
        ..PacketFields::default()
    }
}

// A packet that was read, its content still to come.
fn begun(p: Packet) -> PacketFields
    ensures { result ≡ begun_view (packet_values (packet_view p.entry)).kind.number (size_of (packet_view p.entry)) (header_of (packet_values (packet_view p.entry)).header) }
{
    PacketFields {
        accepted: true,
        kind: u8::from(p.kind()),
        size: p.size(),
        header: p.header(),
        ..PacketFields::default()
    }
}

// Promised of a packet that is in its ranges, as each that was read.
impl<'a> From<Packet<'a>> for PacketFields {
    ghost from_gives = { λ p f. packet_fits (packet_view p) ≡ true → f ≡ packet_fields_view (packet_view p) };

    fn from(p: Packet<'a>) -> PacketFields {
        let begun = begun(p);
        match p {
            Packet::TimingPoint(x) => PacketFields {
                nidc: x.nidc,
                nidtp: x.nidtp,
                q_eoj_reached: x.q_eoj_reached,
                alignment: x.alignment,
                status: x.status,
                stopping: x.stopping,
                ..begun
            },
            Packet::JpReceived(x) => PacketFields {
                nidc: x.nidc,
                atots: x.atots,
                date: x.date,
                seconds: x.seconds,
                counter: x.counter,
                status: x.status,
                ..begun
            },
            Packet::AtoStatus(x) => PacketFields {
                state: x.state,
                // The remainder alters no conditions that are in their ranges.
                conditions: (x.conditions.number() % 65536) as u16,
                ..begun
            },
            Packet::TractionBrake(x) => PacketFields {
                m_ato_trabrrq: x.requested.m_ato_trabrrq,
                m_ato_locobrrq: x.requested.m_ato_locobrrq,
                q_ato_suptb: x.requested.q_ato_suptb,
                m_ato_rtbrq: x.requested.m_ato_rtbrq,
                ..begun
            },
            Packet::AdhesionSystem(x) => PacketFields {
                constraint_count: x.constraints.count(),
                ..begun
            },
        }
    }
}

// Row k of a packet 64; blank from its count on, and of another packet.
fn row_of(p: Packet, k: usize) -> TemporaryConstraint
    ensures { result ≡ row_in (packet_view p.entry) k }
{
    match p {
        Packet::AdhesionSystem(x) if k < usize::from(x.constraints.count()) => {
            x.constraints.row(k as u8)
        }
        _ => TemporaryConstraint::default(),
    }
}

// Row k of a packet 64 that the reader takes; else blank.
pub fn read_row(bytes: &[u8], k: usize) -> TemporaryConstraint
    ensures { result ≡ row_view (packet_of bytes.now) k }
{
    match packet_reader::read_packet(bytes) {
        Ok(p) => row_of(p, k),
        Err(_) => TemporaryConstraint::default(),
    }
}

// One packet, exactly.
#[tactic(auto, using(packets::proofs::RoundTrips::read_fits))]
pub fn read_fields(bytes: &[u8]) -> PacketFields
    ensures { result ≡ fields_view (packet_of bytes.now) }
{
    match packet_reader::read_packet(bytes) {
        Ok(p) => PacketFields::from(p),
        Err(r) => refused(r),
    }
}
