// A state as a line of text: two lower-case hexadecimal digits for each byte, and a newline.
ghost use Rattle.std.specs.Prelude.{List, ℕ, IfSome, IsSome};
ghost use Rattle.keccak_vectors.specs.Line.{Bytes, Spells};

// The state of a line, found just where the line is the line of one.
pub fn parse(line: &[u8; 401]) -> Option<[u8; 200]>
    ensures spells { IfSome result (λ state. Spells line.now state) }
    ensures by_index { (s : List ℕ) → Bytes s → Spells line.now s → IsSome result }
{
    let mut state = [0u8; 200];
    for i in 0..200 {
        state[i] = hex_digits::byte(line[2 * i], line[2 * i + 1])?;
    }
    (line[400] == b'\n').then_some(state)
}

// The line of a state.
pub fn spelled(state: &[u8; 200]) -> [u8; 401]
    ensures { Spells result state.now }
{
    let mut line = [b'\n'; 401];
    for (i, byte) in state.iter().enumerate() {
        let [upper, lower] = hex_digits::of(*byte);
        line[2 * i] = upper;
        line[2 * i + 1] = lower;
    }
    line
}
