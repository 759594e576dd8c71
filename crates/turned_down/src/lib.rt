// The packet 65 of profiles that were turned down: a load was refused for its book or its journey.
#![tactic(auto)]

ghost use Rattle.std.specs.Prelude.{◌≡◌, length};
ghost use Rattle.wire.specs.Refusals.{number_of};
ghost use Rattle.engine_value.specs.Engine.{route_in};
ghost use Rattle.packets.specs.Packets.{joined};
ghost use Rattle.packets.specs.View.{packet_view};
ghost use Rattle.call_values.specs.Packets.{jp_turned_down};
ghost use Rattle.call.specs.Call.{packets_refused_in, with_packets};

use engine_value::Engine;
use packets::{JpReceived, JpStatus, Packet, PacketKind};
use position::Place;
use wire::Refusal;

// Nothing of the journey that was refused is told: stamp 0, and the NID_ATOTS of a journey that has none.
#[tactic(auto, unfolding(call_values::specs::Packets::jp_turned_down))]
fn jp_turned_down<'a>(e: &Engine) -> Packet<'a>
    ensures { packet_view result ≡ jp_turned_down (route_in e.now) e.now.train.position }
{
    let place = Place::new(e.route(), e.train.position);
    Packet::JpReceived(JpReceived {
        header: event_packets::header(e),
        nidc: event_packets::country(place),
        atots: journey::NO_ATOTS,
        date: 0,
        seconds: 0,
        counter: 0,
        status: u8::from(JpStatus::TurnedDown),
    })
}

// Where a row of book or journey refuses, and there is room, the packet at the front of the output memory; how many bytes it has, or 0.
#[tactic(auto, using(crate::proofs::Laws::not_turned_down, crate::proofs::Laws::too_short, crate::proofs::Laws::written))]
pub fn write(e: &Engine, row: Refusal, out: &mut [u8]) -> usize
    ensures bytes { result ≡ length (joined (packets_refused_in e.now (number_of row) out.old)) }
    ensures output { out.new ≡ with_packets (packets_refused_in e.now (number_of row) out.old) out.old }
{
    let size = PacketKind::JpReceived.size();
    if !row.turns_down() || out.len() < size {
        return 0;
    }
    packet_writer::put_packet(jp_turned_down(e), out, 0);
    size
}
