// The player: reads events from standard input, hands each to the engine, and writes the lines of its answer. Where reading or writing fails
// it says so on standard error and ends.
#![tactic(auto)]

ghost use Rattle.std.specs.Prelude.{◌+◌, ◌-◌, ◌≤◌, ◌≡◌, [], length, take, drop};
ghost use Rattle.player_text.specs.Lines.{most_lines};
ghost use Rattle.player.specs.Played.{left};
ghost use Rattle.player.specs.Played.{run as Played·run};

use arrayvec::ArrayVec;
use engine_value::Engine;
use player_text::{calls, lines};
use std::io::{Read, Write};
use std::{fmt, io};

// An event with its profiles has 196,611 bytes at most (`call-there` of player_text/proofs/Room.antt), so that there is always room to read on.
const INPUT: usize = 262144;

// The bytes that are read at once, at most. They stand on the stack beside the input.
const CHUNK: usize = 16384;

// "It lends 4,096 output bytes"
const MEMORY: usize = 4096;

// The lines of four events at least.
const TEXT: usize = 65536;

// What failed.
#[derive(Drop)]
enum Failed {
    Reading(io::Error),
    Writing(io::Error),
}

impl fmt::Display for Failed {
    fn fmt<W: fmt::Write>(&self, f: &mut fmt::Formatter<W>) -> fmt::Result {
        match self {
            Failed::Reading(e) => write!(f, "standard input: {e}"),
            Failed::Writing(e) => write!(f, "standard output: {e}"),
        }
    }
}

// The lines that are still to be written out, and how writing went so far.
#[derive(Drop)]
struct Output {
    text: ArrayVec<u8, TEXT>,
    written: io::Result<()>,
}

impl Output {
    // The text is written out. After a write that failed nothing more is written: no line stands behind one that is missing.
    fn flush<R: Print>(&mut self, rt: &R)
        ensures { self.new.text.items ≡ [] }
    {
        if self.written.is_ok() {
            self.written = rt.write_all(self.text.as_slice());
        }
        self.text.clear();
    }

    // The lines of an event fit behind the text, or else it is written out first.
    fn make_room<R: Print>(&mut self, rt: &R)
        ensures { length self.new.text.items + most_lines ≤ 65536 }
    {
        if self.text.remaining_capacity() < lines::MOST_LINES {
            self.flush(rt);
        }
    }
}

// Engine, output memory and output.
#[derive(Drop)]
struct Player {
    engine: Engine,
    memory: [u8; MEMORY],
    out: Output,
}

impl Player {
    // Plays each event in s that is not cut short, and gives what is behind them.
    #[tactic(auto, using(player_text::proofs::Laws::call_shorter, crate::proofs::Laws::run_end))]
    fn play_whole<'a, R: Print>(&mut self, rt: &R, s: &'a [u8]) -> &'a [u8]
        ensures left { left self.new.engine self.new.memory result.now ≡ Played·run (length s.now) self.old.engine self.old.memory s.now }
        ensures end { drop (length s.now - length result.now) s.now ≡ result.now }
    {
        let mut rest = s;
        while let Some((c, behind)) = calls::read_call(rest) {
            self.out.make_room(rt);
            player_step::play_on(&mut self.engine, c, &mut self.memory, &mut self.out.text);
            rest = behind;
        }
        rest
    }

    // Plays each event of the input that is whole, writes their lines out, and keeps what is behind them.
    fn play_input<R: Print>(&mut self, rt: &R, input: &mut ArrayVec<u8, INPUT>) -> io::Result<()>
        ensures { left self.new.engine self.new.memory input.new.items
            ≡ Played·run (length input.old.items) self.old.engine self.old.memory input.old.items }
    {
        let left = self.play_whole(rt, input.as_slice()).len();
        let played = input.len() - left;
        drop(input.drain(..played));
        self.out.flush(rt);
        self.out.written
    }
}

// Reads on behind the bytes that are kept, and answers how many more there are. The chunk is lent: made here it would be cleared at each read.
fn read_more<I: Read>(
    from: &mut I,
    input: &mut ArrayVec<u8, INPUT>,
    chunk: &mut [u8; CHUNK],
) -> io::Result<usize>
    ensures { take (length input.old.items) input.new.items ≡ input.old.items }
{
    let room = input.remaining_capacity().min(CHUNK);
    let n = from.read(&mut chunk[..room])?;
    input.write(&chunk[..n])
}

fn run<R: Print, I: Read>(rt: &R, from: &mut I) -> Result<(), Failed> {
    let mut input = ArrayVec::new();
    let mut chunk = [0; CHUNK];
    let mut player = Player {
        engine: engine_value::fresh(),
        memory: [0; MEMORY],
        out: Output {
            text: ArrayVec::new(),
            written: Ok(()),
        },
    };
    // Nothing proves that an input ends, which a `while` would need: this counts to a number that no run reaches.
    for _ in 0..u64::MAX {
        if read_more(from, &mut input, &mut chunk).map_err(Failed::Reading)? == 0 {
            break;
        }
        player.play_input(rt, &mut input).map_err(Failed::Writing)?;
    }
    Ok(())
}

fn main(rt: HostRuntime) {
    if let Err(e) = run(&rt, &mut rt.stdin()) {
        let _ = eprintln!(&rt; "player: {e}");
    }
}
