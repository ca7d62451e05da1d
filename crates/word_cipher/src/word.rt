// Words of four bytes, the first the least significant: a column of the state, or a word of the schedule.
ghost use Rattle.std.specs.Prelude.{◌≡◌, ◌+◌, ◌*◌, ◌<◌, length};
ghost use Rattle.word_cipher.specs.Words.{word, byte_of, word_in};

#[tactic(auto, unfolding(crate::specs::Words::word))]
pub(crate) fn word_of(a: u8, b: u8, c: u8, d: u8) -> u32
    ensures { result ≡ word a b c d }
{
    u32::from_le_bytes([a, b, c, d])
}

// Byte k of a word.
#[tactic(auto, unfolding(crate::specs::Words::byte_of))]
pub(crate) fn byte_of(x: u32, k: usize) -> u8
    requires { k < 4 }
    ensures { result ≡ byte_of x k }
{
    x.to_le_bytes()[k]
}

// Word i of a list of bytes.
pub(crate) fn word_in(s: &[u8], i: usize) -> u32
    requires { 4 * i + 3 < length s.now }
    ensures { result ≡ word_in s.now i }
{
    u32::from_le_bytes(s.as_chunks::<4>().0[i])
}
