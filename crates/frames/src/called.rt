// What comes of a line in shape.
ghost use Rattle.std.specs.Prelude.{◌≤◌, length};
ghost use Rattle.frames.specs.Frames.{limit};

use strobe::Outcome;

#[derive(Clone, Copy)]
pub struct Called<'a> {
    pub outcome: Outcome,
    // what is shown of the line's buffer
    pub shown: &'a [u8],
    ghost fits: { length shown.now ≤ limit },
}
