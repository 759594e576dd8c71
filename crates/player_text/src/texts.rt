// What lines are put into, as far as there is room: a vector of any size, or a slice of any length from a position on. One size, or one of the two
// alone, would ask more of who calls.
ghost use Rattle.std.specs.Prelude.{◌≡◌, ◌+◌, ℕ, List, [], ◌∷◌, length, min, max};
ghost use Rattle.std.specs.Borrow.{GName};
ghost use Rattle.std.proofs.lemmas.List.Edits.{sets};
ghost use Rattle.player_text.specs.View.{appended, Grows, Put};

use arrayvec::ArrayVec;
use std::io::Write;

// A text, by what it holds once bytes are put behind it.
pub trait Text {
    ghost Held: { Type 0 };

    ghost grown: { Self → List ℕ → Held };

    fn put(&mut self, s: &[u8])
        ensures { Grows grown self.old s.now self.new };
}

impl<const N: usize> Text for ArrayVec<u8, N> {
    ghost Held = { List ℕ };

    ghost grown = { λ v l. appended N v.items l };

    fn put(&mut self, s: &[u8]) {
        let _ = self.write(s);
    }
}

// A slice that is lent, and the position behind what was put into it. The kit's `Cursor` doesn't promise that it stays the same slice.
#[derive(Drop)]
pub struct Cursor<'a> {
    pub text: &'a mut [u8],
    pub at: usize,
}

impl Text for Cursor<'_> {
    ghost Held = { GName × List ℕ × ℕ };

    ghost grown = { λ c l. (c.text.ghost_name, sets c.text.now c.at l, min (c.at + length l) (max c.at (length c.text.now))) };

    fn put(&mut self, s: &[u8]) {
        self.at = put_bytes(self.text, self.at, s);
    }
}

// One byte at a position, and the next position; past the end, nothing.
#[tactic(auto, using(crate::proofs::Laws::put_past))]
fn put_byte(text: &mut [u8], at: usize, b: u8) -> usize
    ensures { Put text.old at (b ∷ []) text.new result }
{
    if at < text.len() {
        text[at] = b;
        return at + 1;
    }
    at
}

fn put_bytes(text: &mut [u8], at: usize, s: &[u8]) -> usize
    ensures { Put text.old at s.now text.new result }
{
    let mut next = at;
    for b in s {
        next = put_byte(text, next, *b);
    }
    next
}
