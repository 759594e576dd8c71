// What a call answers; the meaning of its packets and rows stands in specs/.
#![tactic(auto)]

use wire::Refusal;

// Accepted: state, request and bytes written. The state is its number, as the C interface hands it on.
#[derive(Clone, Copy)]
pub struct Accepted {
    pub state: u8,
    pub request: bool,
    pub bytes: usize,
}

// Refused: the row of the table of numbers that refuses, and the bytes of a packet 65, where profiles were turned down.
#[derive(Clone, Copy)]
pub struct Refused {
    pub row: Refusal,
    pub bytes: usize,
}
