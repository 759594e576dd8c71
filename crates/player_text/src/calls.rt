// The events in the input, each with the profiles that follow it.
ghost use Rattle.std.specs.Prelude.{◌≡◌};
ghost use Rattle.fields.specs.View.{parsed_by};
ghost use Rattle.player_text.specs.Calls.{block, call};
ghost use Rattle.player_text.specs.View.{given_view};

use event::EventKind;
use fields::read_field;
use wire::Number;

// An event and its profiles.
#[derive(Clone, Copy, Default)]
pub struct Call<'a> {
    pub event: &'a [u8],
    pub journey: &'a [u8],
    pub book: &'a [u8],
}

// A two-byte length, and as many bytes.
#[tactic(auto, unfolding(crate::specs::Calls::block, crate::specs::Calls::some))]
fn read_block(s: &[u8]) -> Option<(&[u8], &[u8])>
    ensures { parsed_by (λ b. b.now) result ≡ block s.now }
{
    let (count, s) = read_field::<u16>(s, 0, 65535)?;
    s.split_at_checked(count as usize)
}

// An event and, where its first byte is the kind of a load, the journey and the book behind it.
#[tactic(auto, unfolding(crate::specs::Calls::call, crate::specs::Calls::profiles))]
pub fn read_call(s: &[u8]) -> Option<(Call<'_>, &[u8])>
    ensures { parsed_by given_view result ≡ call s.now }
{
    let (event, s) = read_block(s)?;
    let call = Call {
        event,
        ..Call::default()
    };
    if u8::get(event, 0) != u8::from(EventKind::Load) {
        return Some((call, s));
    }
    let (journey, s) = read_block(s)?;
    let (book, s) = read_block(s)?;
    let call = Call {
        journey,
        book,
        ..call
    };
    Some((call, s))
}
