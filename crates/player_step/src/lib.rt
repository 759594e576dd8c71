// One event of the player's input: the engine's call, and the lines of its answer.
#![tactic(auto)]

ghost use Rattle.std.specs.Prelude.{◌≡◌};
ghost use Rattle.call_values.specs.View.{answer_view};
ghost use Rattle.player_text.specs.Lines.{lines};
ghost use Rattle.player_text.specs.View.{appended, Put};
ghost use Rattle.player_step.specs.View.{played};

use arrayvec::ArrayVec;
use call_values::{Accepted, Refused};
use engine_value::Engine;
use player_text::calls::Call;
use player_text::lines;

// The engine's call.
fn step(e: &mut Engine, c: Call, memory: &mut [u8]) -> Result<Accepted, Refused>
    ensures engine { e.new ≡ (played e.old c.entry memory.old).engine }
    ensures answer { answer_view result ≡ (played e.old c.entry memory.old).answer }
    ensures output { memory.new ≡ (played e.old c.entry memory.old).memory }
{
    engine::step(e, c.event, c.journey, c.book, memory)
}

// One event: the engine after it, its lines in the text from a position on, and the position behind them.
pub fn play(e: &mut Engine, c: Call, memory: &mut [u8], text: &mut [u8], at: usize) -> usize
    ensures engine { e.new ≡ (played e.old c.entry memory.old).engine }
    ensures output { memory.new ≡ (played e.old c.entry memory.old).memory }
    ensures text { Put text.old at (lines (played e.old c.entry memory.old).answer memory.new) text.new result }
{
    let answer = step(e, c, memory);
    lines::put_answer(text, at, answer, memory)
}

// The same, its lines behind the items of a vector.
pub fn play_on<const N: usize>(
    e: &mut Engine,
    c: Call,
    memory: &mut [u8],
    text: &mut ArrayVec<u8, N>,
)
    ensures engine { e.new ≡ (played e.old c.entry memory.old).engine }
    ensures output { memory.new ≡ (played e.old c.entry memory.old).memory }
    ensures text { text.new.items ≡ appended N text.old.items (lines (played e.old c.entry memory.old).answer memory.new) }
{
    let answer = step(e, c, memory);
    lines::append_answer(text, answer, memory);
}
