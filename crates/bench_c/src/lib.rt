// The functions of the crate bench as a static library, so that a Rust program can call them: each calls the one of its name and promises the same.
#![tactic(auto)]

ghost use Rattle.std.specs.Prelude.{◌≡◌};
ghost use Rattle.fips202.specs.Bytes.{keccak_f1600};
ghost use Rattle.bench.specs.Rows.{Row};
ghost use Rattle.strobe.specs.Flags.{AD, SEND_ENC, PRF};

#[unsafe(no_mangle)]
pub extern "C" fn bench_permute(state: &mut [u8; 200])
    ensures { state.new ≡ keccak_f1600 state.old }
{
    bench::bench_permute(state);
}

#[unsafe(no_mangle)]
pub extern "C" fn bench_ad(times: usize, buf: &[u8], out: &mut [u8])
    ensures { Row AD times buf.now out.old buf.now out.new }
{
    bench::session::bench_ad(times, buf, out);
}

#[unsafe(no_mangle)]
pub extern "C" fn bench_send_enc(times: usize, buf: &mut [u8], out: &mut [u8])
    ensures { Row SEND_ENC times buf.old out.old buf.new out.new }
{
    bench::session::bench_send_enc(times, buf, out);
}

#[unsafe(no_mangle)]
pub extern "C" fn bench_prf(times: usize, buf: &mut [u8], out: &mut [u8])
    ensures { Row PRF times buf.old out.old buf.new out.new }
{
    bench::session::bench_prf(times, buf, out);
}
