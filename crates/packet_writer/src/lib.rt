// The writer of one packet. Places are numbers, as in the reader.
#![tactic(auto)]

ghost use Rattle.std.specs.Prelude.{◌≡◌, [], ◌∷◌, ◌++◌, ◌+◌, ◌%◌, take, drop};
ghost use Rattle.std.proofs.lemmas.List.Edits.{sets};
ghost use Rattle.layout.specs.Layout.{weighed, bytes};
ghost use Rattle.packets.specs.Layouts.{header_layout, content_at, content62, content65, content68, content61};
ghost use Rattle.packets.specs.View.{packet_view, kind_view, header_view, timing_point_view, jp_received_view, ato_status_view, requested_view};
ghost use Rattle.packets.specs.Packets.{packet_bytes, written_count, written_memory};
ghost use Rattle.wire.specs.View.{judged};

use packets::{AtoStatus, Header, JpReceived, Packet, PacketKind, Requested, TimingPoint};
use wire::{Number, Refusal};

// The packet's number and the header, at the front.
#[tactic(auto, unfolding(layout::specs::Layout::bytes, wire::specs::Numbers::bytes_of))]
fn put_header(kind: PacketKind, h: Header, out: &mut [u8])
    ensures { out.new ≡ sets out.old 0 ((kind_view kind).number ∷ bytes header_layout (header_view h)) }
{
    u8::from(kind).put(out, 0);
    h.nidc.put(out, 1);
    h.nidsp.put(out, 3);
    h.offset.put(out, 7);
    h.speed.put(out, 11);
    h.operational.put(out, 13);
}

// The info byte. The remainder alters no info whose parts are in their ranges.
fn info_byte(p: TimingPoint) -> u8
    ensures { result ≡ (p.q_eoj_reached + weighed (2 ∷ 8 ∷ []) (p.alignment ∷ p.status ∷ [])) % 256 }
{
    let sum = (p.q_eoj_reached as u32) + 2 * (p.alignment as u32) + 8 * (p.status as u32);
    (sum % 256) as u8
}

// The contents, each behind the header.

#[tactic(auto, unfolding(layout::specs::Layout::bytes, wire::specs::Numbers::bytes_of))]
fn put_timing_point(p: TimingPoint, out: &mut [u8])
    ensures { out.new ≡ sets out.old content_at (bytes content62 (timing_point_view p)) }
{
    p.nidc.put(out, 17);
    p.nidtp.put(out, 19);
    info_byte(p).put(out, 23);
    p.stopping.put(out, 24);
}

#[tactic(auto, unfolding(layout::specs::Layout::bytes, wire::specs::Numbers::bytes_of))]
fn put_jp_received(p: JpReceived, out: &mut [u8])
    ensures { out.new ≡ sets out.old content_at (bytes content65 (jp_received_view p)) }
{
    p.nidc.put(out, 17);
    p.atots.put(out, 19);
    p.date.put(out, 21);
    p.seconds.put(out, 23);
    p.counter.put(out, 27);
    p.status.put(out, 28);
}

#[tactic(auto, unfolding(layout::specs::Layout::bytes, wire::specs::Numbers::bytes_of))]
fn put_ato_status(p: AtoStatus, out: &mut [u8])
    ensures { out.new ≡ sets out.old content_at (bytes content68 (ato_status_view p)) }
{
    let word = p.conditions.word(p.state);
    // The remainder alters no word whose parts are in their ranges.
    ((word % 65536) as u16).put(out, 17);
}

#[tactic(auto, unfolding(layout::specs::Layout::bytes, wire::specs::Numbers::bytes_of))]
fn put_requested(r: Requested, out: &mut [u8])
    ensures { out.new ≡ sets out.old content_at (bytes content61 (requested_view r)) }
{
    r.m_ato_trabrrq.put(out, 17);
    r.m_ato_locobrrq.put(out, 18);
    r.q_ato_suptb.put(out, 19);
    r.m_ato_rtbrq.put(out, 20);
}

// The packet's bytes at the front, whatever its values.
fn put_front(p: Packet, out: &mut [u8])
    ensures { out.new ≡ sets out.old 0 (packet_bytes (packet_view p.entry)) }
{
    put_header(p.kind(), p.header(), out);
    match p {
        Packet::TimingPoint(x) => put_timing_point(x, out),
        Packet::JpReceived(x) => put_jp_received(x, out),
        Packet::AtoStatus(x) => put_ato_status(x, out),
        Packet::TractionBrake(x) => put_requested(x.requested, out),
        Packet::AdhesionSystem(x) => x.constraints.put(out, 17),
    }
}

// The packet's bytes from a position on, whatever its values; stores past the end store nothing. For a caller that has
// counted the bytes.
pub fn put_packet(p: Packet, out: &mut [u8], at: usize)
    ensures { out.new ≡ sets out.old at (packet_bytes (packet_view p.entry)) }
{
    let from = at.min(out.len());
    let (_, rest) = out.split_at_mut(from);
    put_front(p, rest);
}

// The packet at the front of the memory; the bytes behind it stay.
#[tactic(auto, using(crate::proofs::WriterLaws::stored_front), unfolding(packets::specs::Packets::written_count, packets::specs::Packets::written_memory))]
pub fn write_packet(p: Packet, out: &mut [u8]) -> Result<usize, Refusal>
    ensures count { judged result ≡ written_count (packet_view p.entry) out.old }
    ensures memory { out.new ≡ written_memory (packet_view p.entry) out.old }
{
    let size = p.size();
    if !p.fits() {
        return Err(Refusal::PacketRange);
    }
    if out.len() < size {
        return Err(Refusal::Output);
    }
    put_front(p, out);
    Ok(size)
}

// The packet from a position on; the bytes before it stay, too. Memory and position each by itself, as its callers have them: it is public.
pub fn append_packet(p: Packet, out: &mut [u8], at: usize) -> Result<usize, Refusal>
    ensures count { judged result ≡ written_count (packet_view p.entry) (drop at out.old) }
    ensures memory { out.new ≡ take at out.old ++ written_memory (packet_view p.entry) (drop at out.old) }
{
    let start = at.min(out.len());
    let (_, rest) = out.split_at_mut(start);
    write_packet(p, rest)
}
