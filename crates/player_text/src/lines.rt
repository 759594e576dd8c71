// The lines of an answer, behind a text as far as it has room. They are put by hand, since `write!` promises its text only where it answers Ok, and
// nothing says when that is.
ghost use Rattle.std.specs.Prelude.{◌≡◌};
ghost use Rattle.wire.specs.Refusals.{number_of};
ghost use Rattle.player_text.specs.Lines.{hex_line, packet_text, spaced, refused_line, accepted_line};
ghost use Rattle.call_values.specs.View.{answer_view};
ghost use Rattle.player_text.specs.View.{appended, Grows, Put};
ghost use Rattle.player_text.specs.Lines.{digit as Lines·digit, lines as Lines·lines};

use crate::texts::{Cursor, Text};
use arrayvec::ArrayVec;
use call_values::{Accepted, Refused};
use itoa::Buffer;

// The bytes that the lines of an event take at most, for an output memory of 4,096 (`lines_fit` of proofs/Room.antt).
pub const MOST_LINES: usize = 16384;

// The last digit of n, in uppercase hexadecimal, which the kit's hex gives only on the heap.
fn digit(n: u8) -> u8
    ensures { result ≡ Lines·digit n }
{
    let d = n % 16;
    if d < 10 { b'0' + d } else { b'A' + (d - 10) }
}

// A line of uppercase hexadecimal.
#[tactic(auto, using(crate::proofs::Laws::hex_next, crate::proofs::Laws::hex_none))]
fn put_line<T: Text>(text: &mut T, s: &[u8])
    ensures { Grows T.grown text.old (hex_line s.now) text.new }
{
    for b in s {
        text.put(&[digit(*b / 16), digit(*b)]);
    }
    text.put(b"\n");
}

// A line for each packet.
#[tactic(auto, using(crate::proofs::Laws::packets_more, crate::proofs::Laws::packets_none))]
fn put_packets<T: Text>(text: &mut T, s: &[u8])
    ensures { Grows T.grown text.old (packet_text s.now) text.new }
{
    let mut rest = s;
    while !rest.is_empty() {
        let (packet, behind) = rest.split_at(packets::front_size(rest));
        put_line(text, packet);
        rest = behind;
    }
}

// A space and n.
#[tactic(auto, using(crate::proofs::Laws::digits_printed))]
fn put_number<T: Text>(text: &mut T, n: usize)
    ensures { Grows T.grown text.old (spaced n) text.new }
{
    let mut digits = Buffer::new();
    text.put(b" ");
    text.put(digits.format(n).as_bytes());
}

fn put_refused<T: Text>(text: &mut T, r: Refused)
    ensures { Grows T.grown text.old (refused_line (number_of r.row) r.bytes) text.new }
{
    text.put(b"R");
    put_number(text, usize::from(u8::from(r.row)));
    put_number(text, r.bytes);
    text.put(b"\n");
}

fn put_accepted<T: Text>(text: &mut T, a: Accepted)
    ensures { Grows T.grown text.old (accepted_line a.state a.request a.bytes) text.new }
{
    text.put(b"A");
    put_number(text, usize::from(a.state));
    put_number(text, usize::from(a.request));
    put_number(text, a.bytes);
    text.put(b"\n");
}

// An answer, and the packets in the output memory.
#[tactic(auto, using(std::proofs::lemmas::List::take_min), unfolding(crate::specs::Lines::lines))]
fn put_lines<T: Text>(text: &mut T, answer: Result<Accepted, Refused>, memory: &[u8])
    ensures { Grows T.grown text.old (Lines·lines (answer_view answer) memory.now) text.new }
{
    let bytes = match answer {
        Ok(a) => {
            put_accepted(text, a);
            a.bytes
        }
        Err(r) => {
            put_refused(text, r);
            r.bytes
        }
    };
    put_packets(text, &memory[..bytes.min(memory.len())]);
}

fn put_at(cursor: &mut Cursor, answer: Result<Accepted, Refused>, memory: &[u8])
    ensures same_reference { cursor.new.text.ghost_name ≡ cursor.old.text.ghost_name }
    ensures put { Put cursor.old.text.now cursor.old.at (Lines·lines (answer_view answer) memory.now) cursor.new.text.now cursor.new.at }
{
    put_lines(cursor, answer, memory);
}

// The lines of an answer in a slice from a position on, and the position behind them.
pub fn put_answer(
    text: &mut [u8],
    at: usize,
    answer: Result<Accepted, Refused>,
    memory: &[u8],
) -> usize
    ensures { Put text.old at (Lines·lines (answer_view answer) memory.now) text.new result }
{
    let mut cursor = Cursor { text, at };
    put_at(&mut cursor, answer, memory);
    cursor.at
}

// The lines of an answer behind the items of a vector.
pub fn append_answer<const N: usize>(
    text: &mut ArrayVec<u8, N>,
    answer: Result<Accepted, Refused>,
    memory: &[u8],
)
    ensures { text.new.items ≡ appended N text.old.items (Lines·lines (answer_view answer) memory.now) }
{
    put_lines(text, answer, memory);
}
