// Events: one byte kind and what it carries, read and checked (rows 1, 2, 21).
#![tactic(auto)]

ghost use Rattle.std.specs.Prelude.{◌≡◌};
ghost use Rattle.wire.specs.View.{judged_by};
ghost use Rattle.wire.specs.Lists.{any};
ghost use Rattle.adhesion.specs.Constraints.{reversed};
ghost use Rattle.event.specs.Kinds.{position_content, traction_content, adhesion_content, event_constraints};
ghost use Rattle.event.specs.Events.{event_rows, event_with, event_of};
ghost use Rattle.event.specs.View.{event_view};

use adhesion::{CONSTRAINT_SIZE, Constraints};
use engine_value::{MAX_NIDC, Position, UNDEFINED};
use packets::Requested;
use wire::{Number, Refusal, magnitude};

// The kinds of events by their numbers. An enum beside `Event`: the number is known before the values are read.
#[derive(Clone, Copy)]
pub enum EventKind {
    PowerOn = 1,
    Configured = 2,
    PowerOff = 3,
    Fault = 4,
    Reports = 5,
    Mode = 6,
    Lever = 7,
    Press = 8,
    PositionReport = 9,
    Length = 10,
    Load = 11,
    Skip = 12,
    Revoke = 13,
    Traction = 14,
    Adhesion = 15,
}

impl From<EventKind> for u8 {
    ghost use Rattle.event.specs.View.{kind_number};

    ghost from_gives = { λ k n. n ≡ kind_number k };

    fn from(k: EventKind) -> u8 {
        k as u8
    }
}

impl TryFrom<u8> for EventKind {
    ghost use Rattle.wire.specs.View.{judged_by};
    ghost use Rattle.event.specs.View.{kind_number, known_kind};

    ghost try_from_gives = { λ n r. judged_by kind_number r ≡ known_kind n };

    type Error = Refusal;

    fn try_from(n: u8) -> Result<EventKind, Refusal> {
        match n {
            1 => Ok(EventKind::PowerOn),
            2 => Ok(EventKind::Configured),
            3 => Ok(EventKind::PowerOff),
            4 => Ok(EventKind::Fault),
            5 => Ok(EventKind::Reports),
            6 => Ok(EventKind::Mode),
            7 => Ok(EventKind::Lever),
            8 => Ok(EventKind::Press),
            9 => Ok(EventKind::PositionReport),
            10 => Ok(EventKind::Length),
            11 => Ok(EventKind::Load),
            12 => Ok(EventKind::Skip),
            13 => Ok(EventKind::Revoke),
            14 => Ok(EventKind::Traction),
            15 => Ok(EventKind::Adhesion),
            _ => Err(Refusal::EventForm),
        }
    }
}

// The greatest size of a traction request, without its sign.
const MAX_REQUEST: u8 = 100;

// A traction or braking request as its byte in two's complement, of which only the size is read, and the content of the packet 61 that tells it.
#[derive(Clone, Copy)]
pub struct TractionRequest {
    pub request: u8,
    pub content: Requested,
}

// Mode, lever and reports as their bytes: so the engine keeps them (C layout), and there the rows of the states read them. The rows of slippery rail as they
// stand in the event's bytes: an enum holds no array.
#[derive(Clone, Copy)]
pub enum Event<'a> {
    PowerOn,
    Configured,
    PowerOff,
    Fault,
    Reports(u8),
    Mode(u8),
    Lever(u8),
    Press,
    PositionReport(Position),
    Length(u32),
    Load,
    Skip(u32),
    Revoke(u32),
    Traction(TractionRequest),
    Adhesion(Constraints<'a>),
}

// What an event is to the journey and its points: power off, a load, a position report, a driver skip given or revoked, nothing.
#[derive(Clone, Copy)]
pub enum Role {
    Off,
    Load,
    Report,
    Skip { nidtp: u32, on: bool },
    Other,
}

impl<'a> Event<'a> {
    ghost use Rattle.std.specs.Prelude.{option_map};
    ghost use Rattle.adhesion.specs.View.{constraints_view};
    ghost use Rattle.event.specs.Kinds.{kind_of, role_of, newer, carried};
    ghost use Rattle.event.specs.View.{kind_number, role_view};

    pub fn kind(self) -> EventKind
        ensures { kind_number result ≡ kind_of (event_view self.entry) }
    {
        match self {
            Event::PowerOn => EventKind::PowerOn,
            Event::Configured => EventKind::Configured,
            Event::PowerOff => EventKind::PowerOff,
            Event::Fault => EventKind::Fault,
            Event::Reports(_) => EventKind::Reports,
            Event::Mode(_) => EventKind::Mode,
            Event::Lever(_) => EventKind::Lever,
            Event::Press => EventKind::Press,
            Event::PositionReport(_) => EventKind::PositionReport,
            Event::Length(_) => EventKind::Length,
            Event::Load => EventKind::Load,
            Event::Skip(_) => EventKind::Skip,
            Event::Revoke(_) => EventKind::Revoke,
            Event::Traction(_) => EventKind::Traction,
            Event::Adhesion(_) => EventKind::Adhesion,
        }
    }

    // What it is to the journey and its points.
    pub fn role(self) -> Role
        ensures role { role_view result ≡ role_of (event_view self.entry) }
    {
        match self {
            Event::PowerOff => Role::Off,
            Event::Load => Role::Load,
            Event::PositionReport(_) => Role::Report,
            Event::Skip(nidtp) => Role::Skip { nidtp, on: true },
            Event::Revoke(nidtp) => Role::Skip { nidtp, on: false },
            _ => Role::Other,
        }
    }

    // The rows of slippery rail that it brings.
    pub fn constraints(self) -> Option<Constraints<'a>>
        ensures { option_map constraints_view result ≡ (carried (event_view self.entry)).constraints }
    {
        match self {
            Event::Adhesion(c) => Some(c),
            _ => None,
        }
    }

    // The position after it, from the one before.
    pub fn position_after(self, before: Position) -> Position
        ensures { result ≡ newer (carried (event_view self.entry)).position before }
    {
        match self {
            Event::PositionReport(x) => x,
            _ => before,
        }
    }
}

// A row whose start exceeds its end.
fn reversed(e: Event) -> bool
    ensures { result ≡ any reversed (event_constraints (event_view e.entry)) }
{
    match e {
        Event::Adhesion(c) => c.reversed(),
        _ => false,
    }
}

// Rows 1, 2 and 21: the event, where there are as many bytes, its fields are in their ranges, and none of its rows is reversed.
#[tactic(auto, unfolding(crate::specs::Events::event_rows))]
fn event_rows<'a>(s: &[u8], size: usize, fit: bool, e: Event<'a>) -> Result<Event<'a>, Refusal>
    ensures { judged_by event_view result ≡ event_rows size fit (event_view e.entry) s.now }
{
    if s.len() != size {
        Err(Refusal::EventForm)
    } else if !fit {
        Err(Refusal::EventRange)
    } else if reversed(e) {
        Err(Refusal::Reversed)
    } else {
        Ok(e)
    }
}

#[tactic(auto, unfolding(crate::specs::Events::event_with, layout::specs::Layout::values_at))]
fn read_position(s: &[u8]) -> Result<Event<'_>, Refusal>
    ensures { judged_by event_view result ≡ event_with position_content s.now }
{
    let x = Position {
        nidc: u16::get(s, 1),
        nidsp: u32::get(s, 3),
        offset: u32::get(s, 7),
        speed: u16::get(s, 11),
    };
    let fit = x.nidc as u32 <= MAX_NIDC && x.offset <= UNDEFINED;
    event_rows(s, 13, fit, Event::PositionReport(x))
}

#[tactic(auto, unfolding(crate::specs::Events::event_with, layout::specs::Layout::values_at))]
fn read_traction(s: &[u8]) -> Result<Event<'_>, Refusal>
    ensures { judged_by event_view result ≡ event_with traction_content s.now }
{
    let request = u8::get(s, 1);
    let x = TractionRequest {
        request,
        content: Requested::get(s, 2),
    };
    event_rows(s, 7, magnitude(request) <= MAX_REQUEST, Event::Traction(x))
}

#[tactic(auto, unfolding(crate::specs::Events::event_with, layout::specs::Layout::values_at))]
fn read_adhesion(s: &[u8]) -> Result<Event<'_>, Refusal>
    ensures { judged_by event_view result ≡ event_with adhesion_content s.now }
{
    let c = Constraints::get(s, 1);
    let size = 2 + CONSTRAINT_SIZE * usize::from(c.count());
    event_rows(s, size, c.fit(), Event::Adhesion(c))
}

// The event of the bytes: the kind byte, then exactly what that kind carries.
#[tactic(auto, unfolding(crate::specs::Events::event_of, crate::specs::Events::event_of_kind, crate::specs::Events::content_among, crate::specs::Events::event_with, layout::specs::Layout::values_at))]
pub fn read_event(s: &[u8]) -> Result<Event<'_>, Refusal>
    ensures { judged_by event_view result ≡ event_of s.now }
{
    let kind = EventKind::try_from(*s.first().ok_or(Refusal::EventForm)?)?;
    let byte = u8::get(s, 1);
    let number = u32::get(s, 1);
    match kind {
        EventKind::PowerOn => event_rows(s, 1, true, Event::PowerOn),
        EventKind::Configured => event_rows(s, 1, true, Event::Configured),
        EventKind::PowerOff => event_rows(s, 1, true, Event::PowerOff),
        EventKind::Fault => event_rows(s, 1, true, Event::Fault),
        EventKind::Reports => event_rows(s, 2, byte <= 31, Event::Reports(byte)),
        EventKind::Mode => event_rows(s, 2, byte <= 1, Event::Mode(byte)),
        EventKind::Lever => event_rows(s, 2, byte <= 2, Event::Lever(byte)),
        EventKind::Press => event_rows(s, 1, true, Event::Press),
        EventKind::PositionReport => read_position(s),
        EventKind::Length => {
            let fit = (1..=100000).contains(&number);
            event_rows(s, 5, fit, Event::Length(number))
        }
        EventKind::Load => event_rows(s, 1, true, Event::Load),
        EventKind::Skip => event_rows(s, 5, true, Event::Skip(number)),
        EventKind::Revoke => event_rows(s, 5, true, Event::Revoke(number)),
        EventKind::Traction => read_traction(s),
        EventKind::Adhesion => read_adhesion(s),
    }
}
