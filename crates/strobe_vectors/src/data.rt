// What the calls are given: a protocol's name, bytes that count up.
use std::array;

pub const NAME: [u8; 17] = *b"Pekenutor vectors";

// Bytes that count up: one out of its place is seen.
pub fn counting<const N: usize>(first: u8) -> [u8; N] {
    array::from_fn(|i| first.wrapping_add((i % 256) as u8))
}
