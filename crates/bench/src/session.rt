// The rows of the session bench: in a fresh session one operation, so many times over a buffer, then prf into another.
ghost use Rattle.std.specs.Prelude.{List, ℕ};
ghost use Rattle.bench.specs.Rows.{Row, AlwaysCalls};
ghost use Rattle.strobe.specs.declared.flags.Flags.{Flags};
ghost use Rattle.strobe.specs.Flags.{AD, SEND_ENC, PRF};

use strobe::{Level, Outcome, Session};

// The row of an operation. `seen` is the buffer as the operation has it.
fn row<F: Fn(Session, &mut [u8]) -> Outcome>(
    times: usize,
    buf: &mut [u8],
    out: &mut [u8],
    operation: F,
)
    requires { F.IsAlwaysCallable operation }
    ensures { (f : Flags) (seen : List ℕ → List ℕ) → AlwaysCalls f seen (F.post operation) → Row f times (seen buf.old) out.old (seen buf.new) out.new }
{
    let mut session = Session::new(b"bench", Level::B128).session;
    for _ in 0..times {
        let turn = operation(session, buf);
        session = turn.session;
    }
    session.prf(out, false);
}

// ad only reads, so its row lends nothing.
pub fn bench_ad(times: usize, buf: &[u8], out: &mut [u8])
    ensures { Row AD times buf.now out.old buf.now out.new }
{
    row(times, &mut [], out, |session, _| session.ad(buf, false));
}

pub fn bench_send_enc(times: usize, buf: &mut [u8], out: &mut [u8])
    ensures { Row SEND_ENC times buf.old out.old buf.new out.new }
{
    row(
        times,
        buf,
        out,
        |session, lent| session.send_enc(lent, false),
    );
}

pub fn bench_prf(times: usize, buf: &mut [u8], out: &mut [u8])
    ensures { Row PRF times buf.old out.old buf.new out.new }
{
    row(times, buf, out, |session, lent| session.prf(lent, false));
}
