// Keccak-f[1600], the permutation of FIPS 202, on the 200 bytes of a state.
#![tactic(auto)]

mod lanes;
mod round;
mod rounds;

ghost use Rattle.std.specs.Prelude.{◌≡◌};
ghost use Rattle.fips202.specs.Bytes.{keccak_f1600};

// The state after KECCAK-f[1600]. Every 200 bytes are a state, so there is no bad input.
pub fn permute(st: [u8; 200]) -> [u8; 200]
    ensures { result ≡ keccak_f1600 st }
{
    let a = lanes::lanes(&st);
    let b = rounds::rounds(a);
    lanes::bytes(b)
}
