// An answer as a line of text.
ghost use Rattle.std.specs.Prelude.{◌+◌, ◌*◌, ◌≤◌, length};
ghost use Rattle.frames.specs.Hexadecimal.{encode};
ghost use Rattle.frames.specs.Journal.{answer_line};
ghost use Rattle.frames.specs.Inside.{Writes};

// The longest answer: two digits, 4,096 bytes in hexadecimal and a newline.
pub const ANSWER_LIMIT: usize = 8195;

// The journal's own answer, to a line that is out of shape.
pub const BAD_LINE: u8 = 7;

// The digits of the bytes, at the start of `out`. Gives their number.
fn write_hexadecimal(bytes: &[u8], out: &mut [u8]) -> usize
    requires { 2 * length bytes.now ≤ length out.old }
    ensures { Writes (encode bytes.now) out.old result out.new }
{
    for (i, byte) in bytes.iter().enumerate() {
        let [upper, lower] = hex_digits::of(*byte);
        out[2 * i] = upper;
        out[2 * i + 1] = lower;
    }
    2 * bytes.len()
}

// A whole answer, at the start of `out`. Gives its length.
pub fn write(number: u8, shown: &[u8], out: &mut [u8]) -> usize
    requires { 2 * length shown.now + 3 ≤ length out.old }
    ensures { Writes (answer_line number shown.now) out.old result out.new }
{
    out[0] = b'0' + number / 10;
    out[1] = b'0' + number % 10;
    let end = 2 + write_hexadecimal(shown, &mut out[2..]);
    out[end] = b'\n';
    end + 1
}
