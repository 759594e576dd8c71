// An engine that the host lends and keeps, and the packet reader: the calls that C, Ada, C++ and Rust hosts link. host/hollwern.h declares them.
#![tactic(auto)]

ghost use Rattle.std.specs.Prelude.{◌≡◌, ◌≤◌};
ghost use Rattle.engine_value.specs.Engine.{fresh};
ghost use Rattle.call.specs.Call.{step_of};
ghost use Rattle.call.specs.Shown.{constraint_in};
ghost use Rattle.call.specs.View.{shown_view};
ghost use Rattle.call_values.specs.View.{answer_view};
ghost use Rattle.engine.specs.View.{call};
ghost use Rattle.packets.specs.Packets.{packet_of, front_size};
ghost use Rattle.packet_fields.specs.View.{fields_view, row_view};
ghost use Rattle.host.specs.View.{answered};
ghost use Rattle.host.specs.Version.{version};

use adhesion::TemporaryConstraint;
use call::Shown;
use call_values::{Accepted, Refused};
use engine_value::Engine;
use packet_fields::PacketFields;

// The version of this interface, a byte each for the three numbers.
const MAJOR: u32 = 2;

const MINOR: u32 = 3;

const PATCH: u32 = 0;

// State, request and bytes written, where accepted; else the number of the row that refuses, and the bytes written. The fields of the other case
// are 0: one struct for both, since an exported function can hand over no enum.
#[repr(C)]
#[derive(Clone, Copy, Default)]
pub struct Answer {
    pub accepted: bool,
    pub number: u8,
    pub state: u8,
    pub request: bool,
    pub bytes: usize,
}

impl From<Result<Accepted, Refused>> for Answer {
    ghost from_gives = { λ r a. a ≡ answered (answer_view r) };

    fn from(r: Result<Accepted, Refused>) -> Answer {
        match r {
            Ok(a) => Answer {
                accepted: true,
                state: a.state,
                request: a.request,
                bytes: a.bytes,
                ..Answer::default()
            },
            Err(r) => Answer {
                number: u8::from(r.row),
                bytes: r.bytes,
                ..Answer::default()
            },
        }
    }
}

// One event, on the engine where it is kept.
#[unsafe(no_mangle)]
pub extern "C" fn hollwern_step(
    e: &mut Engine,
    event: &[u8],
    journey: &[u8],
    book: &[u8],
    out: &mut [u8],
) -> Answer
    ensures answer { result ≡ answered (step_of e.old (call event.now journey.now book.now out.old)).answer }
    ensures engine { e.new ≡ (step_of e.old (call event.now journey.now book.now out.old)).engine }
    ensures output { out.new ≡ (step_of e.old (call event.now journey.now book.now out.old)).memory }
{
    Answer::from(engine::step(e, event, journey, book, out))
}

// The fresh engine, made where it is kept.
#[unsafe(no_mangle)]
pub extern "C" fn hollwern_fresh(e: &mut Engine)
    ensures { e.new ≡ fresh }
{
    *e = engine_value::fresh();
}

// What the engine shows.
#[unsafe(no_mangle)]
pub extern "C" fn hollwern_show(e: &Engine) -> Shown
    ensures value { result ≡ shown_view e.now }
    ensures nine { result.conditions ≤ 511 }
{
    call::show(e)
}

// Row k of slippery rail that the engine shows; blank from their count on.
#[unsafe(no_mangle)]
pub extern "C" fn hollwern_show_constraint(e: &Engine, k: usize) -> TemporaryConstraint
    ensures { result ≡ constraint_in e.now k }
{
    call::constraint(e, k)
}

// One packet, exactly.
#[unsafe(no_mangle)]
pub extern "C" fn hollwern_read(bytes: &[u8]) -> PacketFields
    ensures { result ≡ fields_view (packet_of bytes.now) }
{
    packet_fields::read_fields(bytes)
}

// Row k of a packet 64; blank from its count on, of another packet, and where the reader refuses.
#[unsafe(no_mangle)]
pub extern "C" fn hollwern_read_constraint(bytes: &[u8], k: usize) -> TemporaryConstraint
    ensures { result ≡ row_view (packet_of bytes.now) k }
{
    packet_fields::read_row(bytes, k)
}

// The bytes of the packet in front. So cut, from the first packet on, what a call wrote falls into its packets: `cut_packets`, and
// `packets` of the theorem over every list.
#[unsafe(no_mangle)]
pub extern "C" fn hollwern_front_size(bytes: &[u8]) -> usize
    ensures { result ≡ front_size bytes.now }
{
    packets::front_size(bytes)
}

// The version that the library was built as.
#[unsafe(no_mangle)]
pub extern "C" fn hollwern_version() -> u32
    ensures { result ≡ version }
{
    MAJOR * 65536 + MINOR * 256 + PATCH
}
