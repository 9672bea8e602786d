// What the benches count: here the permutation, and in `session` the rows of the session bench. The crate bench_c exports it all.
#![tactic(auto)]

pub mod session;

ghost use Rattle.std.specs.Prelude.{◌≡◌};
ghost use Rattle.fips202.specs.Bytes.{keccak_f1600};

pub fn bench_permute(state: &mut [u8; 200])
    ensures { state.new ≡ keccak_f1600 state.old }
{
    *state = keccak::permute(*state);
}
