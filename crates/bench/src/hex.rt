// Capital hexadecimal, two digits a byte.
ghost use Rattle.std.specs.Prelude.{◌≡◌, ◌++◌, ◌+◌, ◌*◌, ◌/◌, ◌≤◌, ◌<◌, length, drop};
ghost use Rattle.bench.specs.Hexadecimal.{is_digit, digit_value, digit_character, decode_hex, encode_hex, all_digits, is_hex};

// Whether a character is a digit.
#[tactic(auto, unfolding(crate::specs::Hexadecimal::is_digit, crate::specs::Hexadecimal::is_decimal, crate::specs::Hexadecimal::is_capital))]
fn is_digit(c: u8) -> bool
    ensures { result ≡ is_digit c }
{
    matches!(c, b'0'..=b'9' | b'A'..=b'F')
}

// What a digit stands for; 0 for any other character.
// Kept: (a) 0, and no Option: the clause, by `digit_value`, says 0; a text is decoded only where `is_hex` holds.
#[tactic(auto, unfolding(crate::specs::Hexadecimal::digit_value, crate::specs::Hexadecimal::is_decimal, crate::specs::Hexadecimal::is_capital))]
fn digit_value(c: u8) -> u8
    ensures { result ≡ digit_value c }
{
    match c {
        b'0'..=b'9' => c - b'0',
        b'A'..=b'F' => c - b'A' + 10,
        _ => 0,
    }
}

// The byte that two digits stand for.
#[tactic(auto, using(crate::proofs::Hexadecimal::digit_small))]
fn byte(high: u8, low: u8) -> u8
    ensures { result ≡ 16 * digit_value high + digit_value low }
{
    16 * digit_value(high) + digit_value(low)
}

// Whether every character is a digit. All are looked at, so that the compiler can take several at once.
// Kept: (b) `fold`, and no `all`: a test that ends at the first other character took 809 of a line's 1,729 instructions (docs/BENCHMARKS.md).
fn all_digits(text: &[u8]) -> bool
    ensures { result ≡ all_digits text.now }
{
    text.iter().fold(true, |digits, c| digits & is_digit(*c))
}

// Whether a text is digits alone, and an even number of them.
#[tactic(auto, unfolding(crate::specs::Hexadecimal::is_hex))]
pub(crate) fn is_hex(text: &[u8]) -> bool
    ensures { result ≡ is_hex text.now }
{
    text.len() % 2 == 0 && all_digits(text)
}

// The bytes of a text, at the front of out.
pub(crate) fn decode(text: &[u8], out: &mut [u8])
    requires { length text.now / 2 ≤ length out.old }
    ensures { out.new ≡ decode_hex text.now ++ drop (length text.now / 2) out.old }
{
    // Kept: (c) out by index: with `zip` of `out.iter_mut()` nothing is known of what out then holds.
    for (i, [high, low]) in text.as_chunks::<2>().0.iter().enumerate() {
        out[i] = byte(*high, *low);
    }
}

// The digit that stands for a number below 16.
#[tactic(auto, unfolding(crate::specs::Hexadecimal::digit_character))]
fn digit_character(n: u8) -> u8
    requires { n < 16 }
    ensures { result ≡ digit_character n }
{
    if n < 10 { b'0' + n } else { b'A' + n - 10 }
}

// The text of bytes, at the front of out.
// Kept: (c) digits by hand: with `write!` into the buffer nothing is known of what it then holds, as with `{:02}` in number_line.
pub(crate) fn encode(bytes: &[u8], out: &mut [u8])
    requires { 2 * length bytes.now ≤ length out.old }
    ensures { out.new ≡ encode_hex bytes.now ++ drop (2 * length bytes.now) out.old }
{
    // Kept: (c) out by index: with `as_chunks_mut::<2>()` nothing is known of what out then holds.
    for (i, b) in bytes.iter().enumerate() {
        out[2 * i] = digit_character(*b / 16);
        out[2 * i + 1] = digit_character(*b % 16);
    }
}
