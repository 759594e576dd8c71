// The reader of one packet. Places in a packet are numbers, as one counts them in a dump: the contracts have them by the layouts.
#![tactic(auto)]

ghost use Rattle.std.specs.Prelude.{◌≡◌};
ghost use Rattle.layout.specs.Layout.{values_at};
ghost use Rattle.packets.specs.Layouts.{header_layout, header_of, kind62, kind65, kind68, kind61, kind64};
ghost use Rattle.packets.specs.Packets.{packet_at, judged_packet, packet_of};
ghost use Rattle.packets.specs.Packet as model;
ghost use Rattle.packets.specs.declared.Packet as code;
ghost use Rattle.packets.specs.View.{kind_view, packet_view};
ghost use Rattle.wire.specs.View.{judged_by};

use adhesion::Constraints;
use packets::{
    AdhesionSystem, AtoStatus, Header, JpReceived, Packet, PacketKind, Requested, TimingPoint,
    TractionBrake,
};
use status_word::OperationalConditions;
use wire::{Number, Refusal};

// The header behind the packet's number.
#[tactic(auto, unfolding(layout::specs::Layout::values_at))]
pub fn get_header(s: &[u8]) -> Header
    ensures { result ≡ header_of (values_at header_layout 1 s.now) }
{
    Header {
        nidc: u16::get(s, 1),
        nidsp: u32::get(s, 3),
        offset: u32::get(s, 7),
        speed: u16::get(s, 11),
        operational: u32::get(s, 13),
    }
}

#[tactic(auto, unfolding(layout::specs::Layout::values_at))]
fn get_timing_point(s: &[u8]) -> TimingPoint
    ensures { model.Packet.TimingPoint result ≡ packet_at kind62 s.now }
{
    let info = u8::get(s, 23);
    TimingPoint {
        header: get_header(s),
        nidc: u16::get(s, 17),
        nidtp: u32::get(s, 19),
        q_eoj_reached: info % 2,
        alignment: info % 8 / 2,
        status: info / 8,
        stopping: u8::get(s, 24),
    }
}

#[tactic(auto, unfolding(layout::specs::Layout::values_at))]
pub fn get_jp_received(s: &[u8]) -> JpReceived
    ensures { model.Packet.JpReceived result ≡ packet_at kind65 s.now }
{
    JpReceived {
        header: get_header(s),
        nidc: u16::get(s, 17),
        atots: u16::get(s, 19),
        date: u16::get(s, 21),
        seconds: u32::get(s, 23),
        counter: u8::get(s, 27),
        status: u8::get(s, 28),
    }
}

#[tactic(auto, unfolding(layout::specs::Layout::values_at))]
fn get_ato_status(s: &[u8]) -> AtoStatus
    ensures { model.Packet.AtoStatus result ≡ packet_at kind68 s.now }
{
    let word = u16::get(s, 17);
    AtoStatus {
        header: get_header(s),
        state: (word % 16) as u8,
        conditions: OperationalConditions::of_word(word),
    }
}

#[tactic(auto, unfolding(layout::specs::Layout::values_at))]
pub fn get_traction_brake(s: &[u8]) -> TractionBrake
    ensures { model.Packet.TractionBrake result ≡ packet_at kind61 s.now }
{
    TractionBrake {
        header: get_header(s),
        requested: Requested::get(s, 17),
    }
}

#[tactic(auto, unfolding(layout::specs::Layout::values_at))]
fn get_adhesion_system(s: &[u8]) -> AdhesionSystem<'_>
    ensures { packet_view (code.Packet.AdhesionSystem result) ≡ packet_at kind64 s.now }
{
    AdhesionSystem {
        header: get_header(s),
        constraints: Constraints::get(s, 17),
    }
}

// The packet of a kind, with the values that stand in its bytes.
fn get_packet(kind: PacketKind, s: &[u8]) -> Packet<'_>
    ensures { packet_view result ≡ packet_at (kind_view kind) s.now }
{
    match kind {
        PacketKind::TimingPoint => Packet::TimingPoint(get_timing_point(s)),
        PacketKind::JpReceived => Packet::JpReceived(get_jp_received(s)),
        PacketKind::AtoStatus => Packet::AtoStatus(get_ato_status(s)),
        PacketKind::TractionBrake => Packet::TractionBrake(get_traction_brake(s)),
        PacketKind::AdhesionSystem => Packet::AdhesionSystem(get_adhesion_system(s)),
    }
}

// A packet whose values were read from so many bytes, judged by its length and its ranges.
#[tactic(auto, unfolding(packets::specs::Packets::judged_packet))]
fn judge<'a>(n: usize, p: Packet<'a>) -> Result<Packet<'a>, Refusal>
    ensures { judged_by packet_view result ≡ judged_packet n (packet_view p.entry) }
{
    if n != p.size() {
        Err(Refusal::PacketLength)
    } else if p.fits() {
        Ok(p)
    } else {
        Err(Refusal::PacketRange)
    }
}

// One packet, exactly.
#[tactic(auto, unfolding(packets::specs::Packets::packet_of))]
pub fn read_packet(s: &[u8]) -> Result<Packet<'_>, Refusal>
    ensures { judged_by packet_view result ≡ packet_of s.now }
{
    let number = s.first().ok_or(Refusal::PacketLength)?;
    let kind = PacketKind::try_from(*number)?;
    judge(s.len(), get_packet(kind, s))
}
