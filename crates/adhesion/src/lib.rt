// Slippery rail: a row of kind 15 and of packet 64, and the rows as they stand in lent bytes.
#![tactic(auto)]

ghost use Rattle.std.specs.Prelude.{◌≡◌, [], length, get_or};
ghost use Rattle.std.proofs.lemmas.List.Edits.{sets};
ghost use Rattle.wire.specs.Lists.{any};
ghost use Rattle.layout.specs.Layout.{bytes, values_at, fits};
ghost use Rattle.layout.specs.Body.{body_bytes, body_at, body_fits};
ghost use Rattle.adhesion.specs.Constraints.{row_layout, constraints_body, constraint_of, constraints_of, reversed, blank_constraint};
ghost use Rattle.adhesion.specs.View.{constraint_view, constraints_view, constraints_values};

use wire::Number;

// The most rows.
pub const MAX_CONSTRAINTS: usize = 31;

// The bytes of a row.
pub const CONSTRAINT_SIZE: usize = 16;

const MAX_NIDC: u16 = 1023;

const MAX_LOCATION: u32 = 16777215;

// A row: SUBSET-140, Table 7, of the temporary constraints that packet 64 tells. Wide fields first, as the engine keeps it, without padding.
#[repr(C)]
#[derive(Clone, Copy, Default)]
pub struct TemporaryConstraint {
    pub nidsp: u32,
    pub start: u32,
    pub end: u32,
    pub nidc: u16,
    pub category: u8,
    pub range: u8,
}

impl TemporaryConstraint {
    // The row at a position; bytes past the end count as 0.
    #[tactic(auto, using(crate::proofs::Laws::row_from), unfolding(layout::specs::Layout::values_at))]
    fn get(s: &[u8], at: usize) -> TemporaryConstraint
        ensures { result ≡ constraint_of (values_at row_layout at s.now) }
    {
        let row = s.get(at..).unwrap_or_default();
        TemporaryConstraint {
            nidc: u16::get(row, 0),
            nidsp: u32::get(row, 2),
            category: u8::get(row, 6),
            range: u8::get(row, 7),
            start: u32::get(row, 8),
            end: u32::get(row, 12),
        }
    }

    // Its bytes stored from a position on, as far as there is room.
    #[tactic(auto, using(wire::proofs::NumberLaws::sets_past), unfolding(layout::specs::Layout::bytes, wire::specs::Numbers::bytes_of))]
    fn put(self, out: &mut [u8], at: usize)
        ensures { out.new ≡ sets out.old at (bytes row_layout (constraint_view self)) }
    {
        if at < out.len() {
            self.nidc.put(out, at);
            self.nidsp.put(out, at + 2);
            self.category.put(out, at + 6);
            self.range.put(out, at + 7);
            self.start.put(out, at + 8);
            self.end.put(out, at + 12);
        }
    }

    fn fits(self) -> bool
        ensures { result ≡ fits row_layout (constraint_view self) }
    {
        self.nidc <= MAX_NIDC && self.start <= MAX_LOCATION && self.end <= MAX_LOCATION
    }

    // Its start exceeds its end.
    fn reversed(self) -> bool
        ensures { result ≡ reversed self }
    {
        self.start > self.end
    }
}

// A count and as many rows, as they stand in lent bytes; past the end bytes count as 0.
#[derive(Clone, Copy)]
pub struct Constraints<'a> {
    content: &'a [u8],
}

impl<'a> Constraints<'a> {
    // No rows.
    #[tactic(auto, unfolding(wire::specs::Numbers::number))]
    pub fn none() -> Constraints<'a>
        ensures { constraints_view result ≡ [] }
    {
        Constraints { content: &[] }
    }

    // Those from a position on.
    #[tactic(auto, using(crate::proofs::Laws::rows_from))]
    pub fn get(s: &'a [u8], at: usize) -> Constraints<'a>
        ensures { constraints_view result ≡ constraints_of (body_at constraints_body at s.now) }
    {
        Constraints {
            content: s.get(at..).unwrap_or_default(),
        }
    }

    #[tactic(auto, using(crate::proofs::Laws::count_is))]
    pub fn count(self) -> u8
        ensures { result ≡ length (constraints_view self.entry) }
    {
        u8::get(self.content, 0)
    }

    // Row k; blank from the count on.
    #[tactic(auto, using(crate::proofs::Laws::row_is, crate::proofs::Laws::no_row))]
    pub fn row(self, k: u8) -> TemporaryConstraint
        ensures { result ≡ get_or (constraints_view self.entry) k blank_constraint }
    {
        if k < self.count() {
            TemporaryConstraint::get(self.content, 1 + CONSTRAINT_SIZE * usize::from(k))
        } else {
            TemporaryConstraint::default()
        }
    }

    // They are not too many, and each is in its ranges.
    pub fn fit(self) -> bool
        ensures { result ≡ body_fits constraints_body (constraints_values (constraints_view self.entry)) }
    {
        usize::from(self.count()) <= MAX_CONSTRAINTS
            && (0..self.count()).all(|k| self.row(k).fits())
    }

    // The start of one of them exceeds its end.
    pub fn reversed(self) -> bool
        ensures { result ≡ any reversed (constraints_view self.entry) }
    {
        (0..self.count()).any(|k| self.row(k).reversed())
    }

    // Count and rows, stored from a position on, as far as there is room.
    #[tactic(auto, using(wire::proofs::NumberLaws::sets_past))]
    pub fn put(self, out: &mut [u8], at: usize)
        ensures { out.new ≡ sets out.old at (body_bytes constraints_body (constraints_values (constraints_view self.entry))) }
    {
        if at < out.len() {
            self.count().put(out, at);
            for k in 0..self.count() {
                self.row(k)
                    .put(out, at + 1 + CONSTRAINT_SIZE * usize::from(k));
            }
        }
    }
}
