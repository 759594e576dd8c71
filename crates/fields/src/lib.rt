// Fields of layouts: numbers of a width that stand within their range, maps of bits, optional fields, lists. Each
// reader takes the front of a slice, and answers the value and the bytes behind it, or nothing.
#![tactic(auto)]

ghost use Rattle.std.specs.Prelude.{◌≡◌, ◌≤◌, min, max, IfSome};
ghost use Rattle.wire.specs.Lists.{twice};
ghost use Rattle.fields.specs.Parse.{field, optional, map_fits, bit_map, counted};
ghost use Rattle.fields.specs.View.{parsed, parsed_by};

use arrayvec::ArrayVec;
use wire::{Number, bit};

#[cfg(test)]
mod tests;

// The bits of one list stand, those of another do not.
fn map_fits(map: u8, standing: &[u8], clear: &[u8]) -> bool
    ensures { result ≡ map_fits standing.now clear.now map }
{
    standing.iter().all(|k| bit(map, *k)) && clear.iter().all(|k| !bit(map, *k))
}

// A map of bits, of which some must stand and some must not.
#[tactic(auto, unfolding(crate::specs::Parse::bit_map))]
pub fn read_map<'a>(s: &'a [u8], standing: &[u8], clear: &[u8]) -> Option<(u8, &'a [u8])>
    ensures { parsed result ≡ bit_map standing.now clear.now s.now }
{
    let (map, s) = read_field::<u8>(s, 0, 255)?;
    map_fits(map, standing, clear).then_some((map, s))
}

// A number within its range. Its bounds are two numbers: a `RangeInclusive` that was iterated to its end no longer
// contains that end, and no type keeps such a one out.
#[tactic(auto, using(std::proofs::lemmas::Map::Keys::le_from_is_le), unfolding(crate::specs::Parse::field))]
pub fn read_field<N: Number>(s: &[u8], low: u32, high: u32) -> Option<(N, &[u8])>
    ensures { parsed_by N.value result ≡ field N.WIDTH low high s.now }
{
    let (_, rest) = s.split_at_checked(N::WIDTH)?;
    let n = N::get(s, 0);
    (low..=high).contains(&n.into()).then_some((n, rest))
}

// The same where its bit stands; where not, the value that an absent field means, a number of the field's own width.
#[tactic(auto, unfolding(crate::specs::Parse::optional))]
pub fn read_optional<N: Number>(
    s: &[u8],
    present: bool,
    other: N,
    low: u32,
    high: u32,
) -> Option<(N, &[u8])>
    ensures { parsed_by N.value result ≡ optional present (N.value other) (field N.WIDTH low high) s.now }
{
    let absent = (other, s);
    if present {
        read_field(s, low, high)
    } else {
        Some(absent)
    }
}

// The same where an absent field may mean a number too wide for the field: both values are answered in four bytes.
#[tactic(auto, unfolding(crate::specs::Parse::optional, crate::specs::Parse::field))]
pub fn read_optional_wide<N: Number>(
    s: &[u8],
    present: bool,
    other: u32,
    low: u32,
    high: u32,
) -> Option<(u32, &[u8])>
    ensures value { parsed result ≡ optional present other (field N.WIDTH low high) s.now }
    ensures most { IfSome result (λ r. r.0 ≤ max other high) }
{
    if present {
        let (n, s) = read_field::<N>(s, low, high)?;
        Some((n.into(), s))
    } else {
        Some((other, s))
    }
}

// An item of a list.
pub trait Item: Copy + Default {
    ghost use Rattle.fields.specs.Parse.{Reader};

    ghost reader: { Reader Self };

    fn read(s: &[u8]) -> Option<(Self, &[u8])>
        ensures { parsed result ≡ reader s.now };
}

// A count of one byte, from 1 to N, and as many items.
#[tactic(auto, using(crate::proofs::ReaderLaws::field_most, crate::proofs::ReaderLaws::many_goes_on, crate::proofs::ReaderLaws::many_ends, crate::proofs::ReaderLaws::many_done), unfolding(crate::specs::Parse::counted))]
pub fn read_counted<I: Item, const N: usize>(s: &[u8]) -> Option<(ArrayVec<I, N>, &[u8])>
    ensures { parsed_by (λ v. v.items) result ≡ counted (min N 255) I.reader s.now }
{
    let most = N.min(255) as u32;
    let (n, mut rest) = read_field::<u8>(s, 1, most)?;
    let mut items = ArrayVec::new();
    for _ in 0..n {
        let (item, behind) = I::read(rest)?;
        items.try_push(item).ok()?;
        rest = behind;
    }
    Some((items, rest))
}

// What bears a name, by which two of a list are the same.
pub trait Bears {
    type Name: PartialEq + Drop;

    ghost name: { Self → Self.Name };

    fn name(&self) -> Self::Name
        ensures { result ≡ name self.now };
}

// Two of the items bear one name.
pub fn name_twice<T: Bears>(items: &[T]) -> bool
    ensures { result ≡ twice (λ a b. T.Name.eq (T.name a) (T.name b)) items.now }
{
    let mut rest = items;
    while let Some((first, behind)) = rest.split_first() {
        let name = first.name();
        if behind.iter().any(|x| x.name() == name) {
            return true;
        }
        rest = behind;
    }
    false
}
