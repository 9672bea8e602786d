// Bytes from hexadecimal digits.
ghost use Rattle.std.specs.Prelude.{◌≤◌, length, IfSome};

// The byte in front of a text, and what follows it.
pub fn split_byte(text: &[u8]) -> Option<(u8, &[u8])> {
    let (digits, rest) = text.split_first_chunk::<2>()?;
    let byte = hex_digits::byte(digits[0], digits[1])?;
    Some((byte, rest))
}

// The bytes of the whole text, in the front of the buffer. There are none where the text is out of shape or has too many.
pub fn read<'a>(text: &[u8], buffer: &'a mut [u8]) -> Option<&'a mut [u8]>
    ensures { IfSome result (λ bytes. length bytes.now ≤ length buffer.old) }
{
    let (pairs, rest) = text.as_chunks::<2>();
    if !rest.is_empty() {
        return None;
    }
    let bytes = buffer.get_mut(..pairs.len())?;
    for (byte, pair) in bytes.iter_mut().zip(pairs) {
        *byte = hex_digits::byte(pair[0], pair[1])?;
    }
    Some(bytes)
}
