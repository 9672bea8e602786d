// Lanes from a state's bytes and back, the least significant byte first.
ghost use Rattle.std.specs.Prelude.{◌≡◌};
ghost use Rattle.fips202.specs.Lanes.{lanes_of_bytes, bytes_of_lanes};

use std::array;

pub fn lanes(st: &[u8; 200]) -> [u64; 25]
    ensures { result ≡ lanes_of_bytes 8 st.now }
{
    let (chunks, _) = st.as_chunks::<8>();
    array::from_fn(|i| u64::from_le_bytes(chunks[i]))
}

pub fn bytes(a: [u64; 25]) -> [u8; 200]
    ensures { result ≡ bytes_of_lanes 8 a }
{
    let mut out = [0; 200];
    for (i, x) in a.iter().enumerate() {
        out[i * 8..i * 8 + 8].copy_from_slice(&x.to_le_bytes());
    }
    out
}
