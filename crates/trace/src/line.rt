// A line as it comes, up to the newline.
ghost use Rattle.std.specs.Prelude.{◌≤◌};
ghost use Rattle.trace.specs.Bounds.{line_limit};

// One character more than the longest line in shape has. A longer line is cut here, and is out of shape all the same.
const LIMIT: usize = 8197;

#[derive(Drop)]
pub struct Line {
    characters: [u8; LIMIT],
    count: usize,
    ghost fits: { count ≤ line_limit },
}

impl Line {
    pub fn new() -> Line {
        Line {
            characters: [0u8; LIMIT],
            count: 0,
        }
    }

    pub fn text(&self) -> &[u8] {
        &self.characters[..self.count]
    }

    pub fn is_empty(&self) -> bool {
        self.count == 0
    }

    pub fn push(&mut self, text: &[u8]) {
        let count = text.len().min(LIMIT - self.count);
        let end = self.count + count;
        self.characters[self.count..end].copy_from_slice(&text[..count]);
        self.count = end;
    }

    pub fn clear(&mut self) {
        self.count = 0;
    }
}
