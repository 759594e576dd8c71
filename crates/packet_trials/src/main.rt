// Trials of the packets' reader and writer, from standard input. A trial is eight bytes (what is tried, then the position, the sizes of name, packet and
// memory, that of the name in one byte, the others in two), then name, packet and memory. It gives a line: its name, and R and the number of a refusal, or W and the count, or the packet's number and its
// values in decimal, header first; after writing also the memory in hexadecimal. tests/inputs/packet_trials.rs has the trials.
#![tactic(auto)]

ghost use Rattle.std.specs.Prelude.{◌≤◌, length, IfOk};

use adhesion::Constraints;
use packets::{AdhesionSystem, AtoStatus, Packet, PacketKind, TimingPoint, TractionBrake};
use status_word::OperationalConditions;
use std::io;
use std::io::Read;
use wire::{Number, Refusal};

// The bytes of a trial's head, and the most bytes of its packet and of its memory.
const HEAD: usize = 8;

const MOST: usize = 600;

// What is tried: to read the packet's bytes; to write the packet at the front of the memory, or from the position on.
#[derive(Clone, Copy)]
enum Tried {
    Read,
    Write,
    Append,
}

impl From<u8> for Tried {
    fn from(n: u8) -> Tried {
        match n {
            0 => Tried::Read,
            1 => Tried::Write,
            _ => Tried::Append,
        }
    }
}

// ---- printing, a space before each

fn print_rows<R: Print>(rt: &R, rows: Constraints) -> io::Result<()> {
    print!(rt; " {}", rows.count())?;
    for k in 0..rows.count() {
        let r = rows.row(k);
        print!(rt;
            " {} {} {} {} {} {}",
            r.nidc, r.nidsp, r.category, r.range, r.start, r.end
        )?;
    }
    Ok(())
}

fn print_packet<R: Print>(rt: &R, p: Packet) -> io::Result<()> {
    let number = u8::from(p.kind());
    let h = p.header();
    print!(rt;
        " {number} {} {} {} {} {}",
        h.nidc, h.nidsp, h.offset, h.speed, h.operational
    )?;
    match p {
        Packet::TimingPoint(x) => print!(rt;
            " {} {} {} {} {} {}",
            x.nidc, x.nidtp, x.q_eoj_reached, x.alignment, x.status, x.stopping
        ),
        Packet::JpReceived(x) => print!(rt;
            " {} {} {} {} {} {}",
            x.nidc, x.atots, x.date, x.seconds, x.counter, x.status
        ),
        Packet::AtoStatus(x) => print!(rt; " {} {}", x.state, x.conditions.number()),
        Packet::TractionBrake(TractionBrake { requested: r, .. }) => print!(rt;
            " {} {} {} {}",
            r.m_ato_trabrrq, r.m_ato_locobrrq, r.q_ato_suptb, r.m_ato_rtbrq
        ),
        Packet::AdhesionSystem(x) => print_rows(rt, x.constraints),
    }
}

fn print_refused<R: Print>(rt: &R, r: Refusal) -> io::Result<()> {
    print!(rt; " R {}", u8::from(r))
}

fn print_written<R: Print>(rt: &R, w: Result<usize, Refusal>, memory: &[u8]) -> io::Result<()> {
    match w {
        Ok(n) => print!(rt; " W {n}")?,
        Err(r) => print_refused(rt, r)?,
    }
    print!(rt; " ")?;
    for b in memory {
        print!(rt; "{b:02X}")?;
    }
    Ok(())
}

// ---- trials

// The packet to write: its number, header and content, each value in bytes of its own, so that all may be out of range.
fn packet_of(s: &[u8]) -> Packet<'_> {
    match PacketKind::try_from(u8::get(s, 0)) {
        Ok(PacketKind::TimingPoint) => Packet::TimingPoint(TimingPoint {
            header: packet_reader::get_header(s),
            nidc: u16::get(s, 17),
            nidtp: u32::get(s, 19),
            q_eoj_reached: u8::get(s, 23),
            alignment: u8::get(s, 24),
            status: u8::get(s, 25),
            stopping: u8::get(s, 26),
        }),
        Ok(PacketKind::JpReceived) => Packet::JpReceived(packet_reader::get_jp_received(s)),
        Ok(PacketKind::TractionBrake) => {
            Packet::TractionBrake(packet_reader::get_traction_brake(s))
        }
        Ok(PacketKind::AdhesionSystem) => Packet::AdhesionSystem(AdhesionSystem {
            header: packet_reader::get_header(s),
            constraints: Constraints::get(s, 17),
        }),
        _ => Packet::AtoStatus(AtoStatus {
            header: packet_reader::get_header(s),
            state: u8::get(s, 17),
            conditions: OperationalConditions::of_word(u16::get(s, 18) % 4096 * 16),
        }),
    }
}

fn try_packet<R: Print>(
    rt: &R,
    tried: Tried,
    packet: &[u8],
    memory: &mut [u8],
    at: usize,
) -> io::Result<()> {
    match tried {
        Tried::Read => match packet_reader::read_packet(packet) {
            Ok(p) => print_packet(rt, p),
            Err(r) => print_refused(rt, r),
        },
        Tried::Write => {
            let w = packet_writer::write_packet(packet_of(packet), memory);
            print_written(rt, w, memory)
        }
        Tried::Append => {
            let w = packet_writer::append_packet(packet_of(packet), memory, at);
            print_written(rt, w, memory)
        }
    }
}

// Reads until the slice is full or the input ends, and answers how many bytes there are: to `read_exact` an input that ends is a failure, and here it is
// none.
fn read_full<I: Read>(from: &mut I, s: &mut [u8]) -> io::Result<usize>
    ensures { IfOk result (λ n. n ≤ length s.new) }
{
    let mut done = 0;
    while done < s.len() {
        let count = from.read(&mut s[done..])?;
        if count == 0 {
            break;
        }
        done += count;
    }
    Ok(done)
}

// What is tried, the position and the sizes are in the head. The three memories are the caller's, and each is used by itself: a struct would only
// name them again.
fn try_next<R: Print, I: Read>(
    rt: &R,
    from: &mut I,
    head: [u8; HEAD],
    name: &mut [u8; 255],
    packet: &mut [u8; MOST],
    memory: &mut [u8; MOST],
) -> io::Result<()> {
    let at = u16::get(&head, 1);
    let name = &mut name[..usize::from(head[3])];
    let packet = &mut packet[..usize::from(u16::get(&head, 4)).min(MOST)];
    let memory = &mut memory[..usize::from(u16::get(&head, 6)).min(MOST)];
    read_full(from, name)?;
    read_full(from, packet)?;
    read_full(from, memory)?;
    rt.write_all(name)?;
    print!(rt; ":")?;
    try_packet(rt, Tried::from(head[0]), packet, memory, usize::from(at))?;
    println!(rt; "")
}

fn run<R: Print, I: Read>(rt: &R, from: &mut I) -> io::Result<()> {
    let mut name = [0u8; 255];
    let mut packet = [0u8; MOST];
    let mut memory = [0u8; MOST];
    // Nothing proves that an input ends, which a `while` would need: this counts to a number that no run reaches.
    for _ in 0..u64::MAX {
        let mut head = [0u8; HEAD];
        if read_full(from, &mut head)? < HEAD {
            break;
        }
        try_next(rt, from, head, &mut name, &mut packet, &mut memory)?;
    }
    Ok(())
}

fn main(rt: HostRuntime) -> io::Result<()> {
    run(&rt, &mut rt.stdin())
}
