// A line as it comes: its digits go two by two into a buffer.
ghost use Rattle.std.specs.Prelude.{◌≡◌, true, option_copied};
ghost use Rattle.frames.specs.Steps.{nothing, part_of, read, read_of, begun};
ghost use Rattle.frames.specs.Inside.{Same, is_whole, read_all, past, said};

// The bytes of the longest line: a flag byte, a `more` byte and a payload.
pub const LINE_LIMIT: usize = 4098;

// Any values of these say something, so that no public function asks for a fact about them: a count past the buffer's end is the end.
#[derive(Clone, Copy)]
pub struct Line {
    pub buffer: [u8; LINE_LIMIT],
    // the bytes so far
    count: usize,
    // the upper half of the next byte, where it waits
    upper: Option<u8>,
    // whether all is in shape so far
    good: bool,
}

impl Line {
    // A line of which nothing has come.
    pub fn empty() -> Line
        ensures { part_of result ≡ nothing }
    {
        Line {
            buffer: [0u8; LINE_LIMIT],
            count: 0,
            upper: None,
            good: true,
        }
    }

    // The same behind a line. The buffer's bytes stay, and say nothing.
    pub fn clear(&mut self)
        ensures { part_of self.new ≡ nothing }
    {
        self.count = 0;
        self.upper = None;
        self.good = true;
    }

    // Whether anything of the line has come.
    pub fn has_begun(&self) -> bool
        ensures { result ≡ begun (part_of self.now) }
    {
        !self.good || self.upper.is_some() || self.count > 0
    }

    // Whether a line that ends here says whole bytes.
    fn is_whole(&self) -> bool
        ensures { result ≡ is_whole (part_of self.now) }
    {
        self.good && self.upper.is_none()
    }

    // The bytes of a line that ends here, if it is in shape.
    pub fn said(&self) -> Option<&[u8]>
        ensures { said (option_copied result) ≡ read_of (part_of self.now) }
    {
        if self.is_whole() {
            Some(&self.buffer[..self.count.min(LINE_LIMIT)])
        } else {
            None
        }
    }

    // One character more.
    #[tactic(auto, unfolding(crate::specs::Steps::read))]
    fn read(&mut self, character: u8)
        ensures { part_of self.new ≡ read (part_of self.old) character }
    {
        if !self.good {
            return;
        }
        match (hex_digits::number(character), self.upper) {
            (None, _) => self.good = false,
            (Some(upper), None) => self.upper = Some(upper),
            (Some(lower), Some(upper)) if self.count < LINE_LIMIT => {
                // The remainder is for a journal that no step has made: its upper half may be any byte.
                self.buffer[self.count] = upper % 16 * 16 + lower;
                self.count += 1;
                self.upper = None;
            }
            (Some(_), Some(_)) => self.good = false,
        }
    }

    // Whole bytes of two digits each, as many as come: no test for a newline or a half, so that a line costs little. Gives the rest of the input.
    fn read_pairs<'a>(&mut self, input: &'a [u8]) -> &'a [u8]
        requires { is_whole (part_of self.old) ≡ true }
        ensures { Same (part_of self.new) result.now (part_of self.old) input.now }
    {
        let mut rest = input;
        // in a local, since a count behind `self` would be stored and read again at each pair
        let mut count = self.count;
        while let [upper, lower, others @ ..] = rest {
            if count >= LINE_LIMIT {
                break;
            }
            let Some(byte) = hex_digits::byte(*upper, *lower) else {
                break;
            };
            self.buffer[count] = byte;
            count += 1;
            rest = others;
        }
        self.count = count;
        rest
    }

    // Takes the input up to the newline, and gives what is behind it; `None` where the line goes on past the input.
    pub fn take<'a>(&mut self, input: &'a [u8]) -> Option<&'a [u8]>
        ensures read { part_of self.new ≡ read_all (part_of self.old) input.now }
        ensures rest { option_copied result ≡ past input.now }
    {
        let mut rest = if self.is_whole() {
            self.read_pairs(input)
        } else {
            input
        };
        while let [character, others @ ..] = rest {
            if *character == b'\n' {
                return Some(others);
            }
            self.read(*character);
            rest = others;
        }
        None
    }
}
