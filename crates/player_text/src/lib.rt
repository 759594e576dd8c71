// The text of the player: the calls in its input, and the lines of an answer.
#![tactic(auto)]

pub mod calls;
pub mod lines;
mod texts;
