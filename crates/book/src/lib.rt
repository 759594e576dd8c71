// Books: segment records end to end, read and checked (rows 7, 8), and look-ups in them.
#![tactic(auto)]

ghost use Rattle.std.specs.Prelude.{◌≡◌, ◌<◌, ◌≤◌, true, false, option_map, length, min, set, take, eqb};
ghost use Rattle.engine_value.specs.Engine.{max_segments};
ghost use Rattle.wire.specs.Lists.{twice, any};
ghost use Rattle.wire.specs.View.{judged_by};
ghost use Rattle.segment_record.specs.declared.BookPoint.{BookPoint};
ghost use Rattle.segment_record.specs.Record.{max_record_points};
ghost use Rattle.segment_record.specs.View.{entry_view};
ghost use Rattle.book.specs.Book.{lookup};
ghost use Rattle.book.specs.Table.{book_of};
ghost use Rattle.book.specs.View.{book_view};

use engine_value::MAX_SEGMENTS;
use fields::{Bears, name_twice};
use segment_record::{Entry, points_of, read_segment};
use wire::Refusal;

// The records of a book in their order: a value that can be copied, which an ArrayVec could not be. Behind the count stand blanks.
#[derive(Clone, Copy)]
pub struct Book<'a> {
    pub entries: [Entry<'a>; MAX_SEGMENTS],
    pub count: u8,
}

impl<'a> Book<'a> {
    // Its records.
    pub fn entries(&self) -> &[Entry<'a>]
        ensures { result.now ≡ take (min max_segments self.now.count) self.now.entries }
    {
        &self.entries[..MAX_SEGMENTS.min(self.count as usize)]
    }
}

// The record of a segment. NID_C and NID_SP each by itself: `Name` is journey's, on which book does not depend.
pub fn find<'a>(book: &Book<'a>, nidc: u16, nidsp: u32) -> Option<Entry<'a>>
    ensures { option_map entry_view result ≡ lookup nidc nidsp (book_view book.now) }
{
    book.entries()
        .iter()
        .find(|e| e.name() == (nidc, nidsp))
        .copied()
}

// In one of the records, two points bear one name.
fn point_twice(records: &[Entry]) -> bool
    ensures { result ≡ any (λ e. twice (λ (p q : BookPoint). eqb p.nidtp q.nidtp) (take max_record_points (entry_view e).points)) records.now }
{
    let twice = |e: &Entry| -> bool
        ensures { result ≡ twice (λ (p q : BookPoint). eqb p.nidtp q.nidtp) (take max_record_points (entry_view e.now).points) }
    { name_twice(points_of(e).as_slice()) };
    records.iter().any(twice)
}

// One record more behind the first ones, and whether there was room for it.
fn keep<'a>(entries: &mut [Entry<'a>; MAX_SEGMENTS], count: usize, e: Entry<'a>) -> bool
    ensures size { length entries.new ≡ max_segments }
    ensures room { count < max_segments → (entries.new ≡ set entries.old count e.entry) × (result ≡ true) }
    ensures full { max_segments ≤ count → (entries.new ≡ entries.old) × (result ≡ false) }
{
    if count < MAX_SEGMENTS {
        entries[count] = e;
        return true;
    }
    false
}

// The whole book: 7 for every record comes before 8. `inline(never)`, as at each step of a load: they take the same stack in turn.
#[tactic(auto, using(crate::proofs::Whole::begins, crate::proofs::Whole::shorter, crate::proofs::Whole::some_left))]
#[inline(never)]
pub fn read_book(s: &[u8]) -> Result<Book, Refusal>
    ensures { judged_by book_view result ≡ book_of s.now }
{
    let mut entries = [Entry::default(); MAX_SEGMENTS];
    let mut count: usize = 0;
    let mut over = false;
    let mut rest = s;
    while !rest.is_empty() {
        let (e, behind) = read_segment(rest).ok_or(Refusal::BookForm)?;
        let kept = keep(&mut entries, count, e);
        count += usize::from(kept);
        over |= !kept;
        rest = behind;
    }
    let records = &entries[..count];
    if over || name_twice(records) || point_twice(records) {
        return Err(Refusal::BookTwice);
    }
    Ok(Book {
        entries,
        count: count as u8,
    })
}
