// The journal: lines of lower-case hexadecimal in, an answer a line out. A function from bytes to bytes, in steps over any pieces of the input.
#![tactic(auto)]

mod answer;
mod called;
mod frame;
mod journal;
mod line;

pub use journal::{Journal, Stepped};
