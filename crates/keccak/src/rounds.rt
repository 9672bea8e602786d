// The rounds of KECCAK-f[1600] on lanes: FIPS 202, 3.4.
ghost use Rattle.std.specs.Prelude.{◌≡◌};
ghost use Rattle.fips202.specs.Lanes.{rounds_lanes};

use crate::round::{complement_marked, round};

// The lanes of the round constants, held to rc(t) by the proof of `rounds`.
const RC: [u64; 24] = [
    0x0000000000000001,
    0x0000000000008082,
    0x800000000000808a,
    0x8000000080008000,
    0x000000000000808b,
    0x0000000080000001,
    0x8000000080008081,
    0x8000000000008009,
    0x000000000000008a,
    0x0000000000000088,
    0x0000000080008009,
    0x000000008000000a,
    0x000000008000808b,
    0x800000000000008b,
    0x8000000000008089,
    0x8000000000008003,
    0x8000000000008002,
    0x8000000000000080,
    0x000000000000800a,
    0x800000008000000a,
    0x8000000080008081,
    0x8000000000008080,
    0x0000000080000001,
    0x8000000080008008,
];

pub fn rounds(a: [u64; 25]) -> [u64; 25]
    ensures { result ≡ rounds_lanes 6 24 a }
{
    // the table is copied once: an index into a constant would copy it at each turn
    let constants = RC;
    let mut s = complement_marked(a);
    for i in 0..12 {
        // two rounds a turn, by a loop that the compiler unrolls: with two calls it would not inline the round
        for j in 0..2 {
            let t = round(s, constants[2 * i + j]);
            s = t;
        }
    }
    complement_marked(s)
}
