// Bytes from hexadecimal text, and numbers from bytes.

// What a digit stands for, if it is one.
// Kept: (d) beside bench's digits, which are capitals: here they are small letters.
fn digit(c: u8) -> Option<u8> {
    match c {
        b'0'..=b'9' => Some(c - b'0'),
        b'a'..=b'f' => Some(c - b'a' + 10),
        _ => None,
    }
}

// The byte of two digits, if they are such.
fn byte(high: u8, low: u8) -> Option<u8> {
    Some(digit(high)? << 4 | digit(low)?)
}

// The bytes of a text, up to the first two characters that are not both digits; how many they are.
pub(crate) fn decode(text: &[u8], out: &mut [u8]) -> usize {
    let (pairs, _) = text.as_chunks::<2>();
    for (i, (b, [high, low])) in out.iter_mut().zip(pairs).enumerate() {
        match byte(*high, *low) {
            Some(value) => *b = value,
            None => return i,
        }
    }
    out.len().min(pairs.len())
}

// The number of 8 bytes or fewer, the most significant first.
pub(crate) fn number(bytes: &[u8]) -> u64 {
    bytes.iter().fold(0, |n, b| n << 8 | u64::from(*b))
}
