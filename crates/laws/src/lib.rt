// Helpers on bytes and blocks that several crates need, and refusals by number.
#![tactic(auto)]

mod numbered;

ghost use Rattle.std.specs.Prelude.{◌≡◌, min, take, drop};
ghost use Rattle.laws.specs.Lists.{overwrite, all_zero};
ghost use Rattle.laws.specs.Blocks.{block_count};

pub use numbered::{Numbered, Outcome, number_of};

// The first elements of out become those of s, as many as there is room for.
pub fn overwrite<T: Copy>(out: &mut [T], s: &[T])
    ensures { out.new ≡ overwrite out.old s.now }
{
    let n = s.len().min(out.len());
    out[..n].copy_from_slice(&s[..n]);
}

// The first n bytes, or all where there are fewer, so that no caller has to show how many there are.
pub fn front(s: &[u8], n: usize) -> &[u8]
    ensures { result.now ≡ take n s.now }
{
    &s[..n.min(s.len())]
}

// What follows the first n bytes; nothing where there are fewer.
pub fn after(s: &[u8], n: usize) -> &[u8]
    ensures { result.now ≡ drop n s.now }
{
    &s[n.min(s.len())..]
}

// Whether every byte is 0.
pub fn all_zero(bytes: &[u8]) -> bool
    ensures { result ≡ all_zero bytes.now }
{
    bytes.iter().all(|byte| *byte == 0)
}

// The blocks of 16 bytes that n bytes take, for every n that there is.
pub fn block_count(n: usize) -> usize
    ensures { result ≡ block_count n }
{
    n.div_ceil(16)
}

// The bytes of a buffer's next part, where so many are left.
pub fn part_size(left: usize) -> usize
    ensures { result ≡ min 16 left }
{
    left.min(16)
}
