// STROBE v1.0.2 over Keccak-f[1600]: sessions by value. Every public function answers every input, by number where strobe-rs would panic.
#![tactic(auto)]

mod answer;
mod call;
mod direction;
mod duplex;
mod flags;
mod last;
mod level;
mod named;
mod opening;
mod parts;
mod pieces;
mod refusal;
mod rule;
mod session;

pub use answer::Answer;
pub use direction::Direction;
pub use flags::{Flags, Operation};
pub use last::Last;
pub use level::Level;
pub use session::{Outcome, Session};
