// The output, which is gathered and written in large pieces.
ghost use Rattle.std.specs.Prelude.{◌≡◌, ◌≤◌, ◌+◌, ◌*◌, length};
ghost use Rattle.trace.specs.Bounds.{out_size, reply_limit};

const SIZE: usize = 65536;

// The longest reply to a line: two lines of output with 4,096 lent bytes each.
const REPLY_LIMIT: usize = 17276;

// So many bytes are turned into digits at once.
const BLOCK: usize = 64;

#[derive(Drop)]
pub struct Out<'a, P> {
    rt: &'a P,
    bytes: [u8; SIZE],
    count: usize,
    ghost fits: { count ≤ out_size },
}

impl<'a, P: Print> Out<'a, P> {
    pub fn new(rt: &'a P) -> Out<'a, P> {
        Out {
            rt,
            bytes: [0u8; SIZE],
            count: 0,
        }
    }

    // A write that fails is not told: what comes behind it is written all the same.
    pub fn flush(&mut self)
        ensures { self.new.count ≡ 0 }
    {
        let _ = self.rt.write_all(&self.bytes[..self.count]);
        self.count = 0;
    }

    // Writes what was gathered where it leaves no room for another reply, so that each reply is written whole.
    pub fn make_room(&mut self)
        ensures { self.new.count + reply_limit ≤ out_size }
    {
        if self.count > SIZE - REPLY_LIMIT {
            self.flush();
        }
    }

    // Where there is no room for the text, what was gathered before it is written. A text that is longer than all the room goes out by itself.
    pub fn push(&mut self, text: &[u8])
        ensures { self.old.count + length text.now ≤ out_size → self.new.count ≡ self.old.count + length text.now }
    {
        if SIZE - self.count < text.len() {
            self.flush();
        }
        if SIZE < text.len() {
            let _ = self.rt.write_all(text);
            return;
        }
        let end = self.count + text.len();
        self.bytes[self.count..end].copy_from_slice(text);
        self.count = end;
    }

    // In hexadecimal digits.
    pub fn push_hex(&mut self, bytes: &[u8])
        ensures { self.old.count + 2 * length bytes.now ≤ out_size → self.new.count ≡ self.old.count + 2 * length bytes.now }
    {
        let mut digits = [0u8; 2 * BLOCK];
        let mut rest = bytes;
        while !rest.is_empty() {
            let (block, behind) = rest.split_at(rest.len().min(BLOCK));
            let text = &mut digits[..2 * block.len()];
            for (pair, byte) in text.as_chunks_mut::<2>().0.iter_mut().zip(block) {
                *pair = hex_digits::of(*byte);
            }
            self.push(text);
            rest = behind;
        }
    }
}
