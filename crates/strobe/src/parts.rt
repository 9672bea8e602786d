// A rule over bytes that stay within a block: no test for a full block, so that the compiler can take many bytes at once.
ghost use Rattle.std.specs.Prelude.{◌≡◌, ◌+◌, ◌≤◌, length};
ghost use Rattle.strobe.specs.Loops.{part, Parted};

use crate::rule::ByteRule;

// Bytes that are only read.
pub fn feed<R: ByteRule>(st: &mut [u8; 200], pos: usize, bytes: &[u8])
    requires { pos + length bytes.now ≤ 200 }
    ensures { st.new ≡ part R.rule st.old pos bytes.now }
{
    for (j, &byte) in bytes.iter().enumerate() {
        st[pos + j] = R::state(st[pos + j], byte);
    }
}

// Lent bytes, which change.
pub fn run<R: ByteRule>(st: &mut [u8; 200], pos: usize, buf: &mut [u8])
    requires { pos + length buf.old ≤ 200 }
    ensures { Parted R.rule st.old pos buf.old st.new buf.new }
{
    for j in 0..buf.len() {
        let met = st[pos + j];
        st[pos + j] = R::state(met, buf[j]);
        buf[j] = R::buffer(met, buf[j]);
    }
}
