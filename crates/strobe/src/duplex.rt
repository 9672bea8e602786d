// Data through the duplex: the state with its positions, and a rule over bytes, block by block.
ghost use Rattle.std.specs.Prelude.{◌+◌, ◌≤◌, ◌<◌, replicate};

use crate::parts;
use crate::rule::{ByteRule, Overwriting};

// The state at a rate, between two bytes of data: there is a place for the next byte, and a begin position fits a byte.
#[derive(Drop)]
pub struct State {
    pub bytes: [u8; 200],
    pub pos: usize,
    pub begin: usize,
    pub rate: usize,
    ghost room: { pos < rate },
    ghost begun: { begin ≤ rate },
    ghost small: { rate ≤ 166 },
}

impl State {
    ghost use Rattle.strobe.specs.Duplex.{close, close_if_full, step};
    ghost use Rattle.strobe.specs.Flags.{zeroing, overwriting};
    ghost use Rattle.strobe.specs.Loops.{at, duplex_of, Becomes, Fed, Ran, Tested};
    ghost use Rattle.strobe.specs.Session.{sponge};

    // Closes the block at a position, which may be the rate.
    #[tactic(auto, unfolding(crate::specs::Duplex::mix, crate::specs::Duplex::padded))]
    pub fn run_f(&mut self, pos: usize)
        requires { pos ≤ self.old.rate }
        ensures { Becomes self.old (close (sponge self.old.rate) (at self.old.bytes pos self.old.begin)) self.new }
    {
        self.bytes[pos] ^= self.begin as u8;
        self.bytes[pos + 1] ^= 0x04;
        self.bytes[self.rate + 1] ^= 0x80;
        self.bytes = keccak::permute(self.bytes);
        self.pos = 0;
        self.begin = 0;
    }

    // Moves the position on over n bytes of the block, and closes the block where it is full.
    #[tactic(auto, unfolding(crate::specs::Duplex::close_if_full))]
    fn advance(&mut self, n: usize)
        requires { self.old.pos + n ≤ self.old.rate }
        ensures { Becomes self.old (close_if_full (sponge self.old.rate) (at self.old.bytes (self.old.pos + n) self.old.begin)) self.new }
    {
        let pos = self.pos + n;
        if pos == self.rate {
            self.run_f(pos);
        } else {
            self.pos = pos;
        }
    }

    // One byte of data.
    #[tactic(auto, unfolding(crate::specs::Duplex::step))]
    pub fn meet<R: ByteRule>(&mut self, byte: u8)
        ensures { Becomes self.old (step (sponge self.old.rate) R.rule (duplex_of self.old) byte) self.new }
    {
        self.bytes[self.pos] = R::state(self.bytes[self.pos], byte);
        self.advance(1);
    }

    // Bytes that are only read.
    pub fn feed<R: ByteRule>(&mut self, bytes: &[u8])
        ensures { Fed R.rule self.old bytes.now self.new }
    {
        let mut rest = bytes;
        while !rest.is_empty() {
            let (block, behind) = rest.split_at(rest.len().min(self.rate - self.pos));
            parts::feed::<R>(&mut self.bytes, self.pos, block);
            self.advance(block.len());
            rest = behind;
        }
    }

    // Lent bytes, which change.
    pub fn run<R: ByteRule>(&mut self, buf: &mut [u8])
        ensures { Ran R.rule self.old buf.old self.new buf.new }
    {
        let mut i = 0;
        while i < buf.len() {
            let size = (self.rate - self.pos).min(buf.len() - i);
            parts::run::<R>(&mut self.bytes, self.pos, &mut buf[i..i + size]);
            self.advance(size);
            i += size;
        }
    }

    // So many zeros in the place of state bytes.
    pub fn zero(&mut self, n: usize)
        ensures { Fed zeroing self.old (replicate n 0) self.new }
    {
        let mut left = n;
        while left > 0 {
            let size = left.min(self.rate - self.pos);
            self.bytes[self.pos..self.pos + size].fill(0);
            self.advance(size);
            left -= size;
        }
    }

    // Takes a received MAC in, and says whether its bytes were the state's.
    pub fn check_mac(&mut self, mac: &[u8]) -> bool
        ensures { Tested overwriting self.old mac.now self.new result }
    {
        let mut same = true;
        for &byte in mac {
            same &= self.bytes[self.pos] == byte;
            self.meet::<Overwriting>(byte);
        }
        same
    }
}
