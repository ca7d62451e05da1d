// SHA-256 and D of slices.
ghost use Rattle.std.specs.Prelude.{◌≡◌, ◌+◌, ◌≤◌, ◌++◌, length};
ghost use Rattle.hash.specs.Sha256.{sha256};
ghost use Rattle.hash.specs.ShaD.{max_message, max_d_message, max_pool_length, D, pool_digest};
ghost use Rattle.hash.specs.Answers.{within};

use crate::answer::{MAX_D_MESSAGE, MAX_MESSAGE, TooLong, within};
use crate::hasher::{Hasher, extended, finished};

// SHA-256 of data within the limit.
fn digest_of(data: &[u8]) -> [u8; 32]
    requires { length «data».now ≤ max_message }
    ensures { result ≡ sha256 «data».now }
{
    finished(&extended(&Hasher::new(), data))
}

// D of what a pool has absorbed, within the limit. The block of zeros counts for SHA-256's length.
pub(crate) fn pool_digest_of(mut r: Hasher) -> [u8; 32]
    requires { r.length ≤ max_pool_length }
    ensures { result ≡ pool_digest r }
{
    r.length += 64;
    digest_of(&finished(&r))
}

// D of a and b joined, within the limit. Neither is copied.
fn sha_d256_of(a: &[u8], b: &[u8]) -> [u8; 32]
    requires { length a.now + length b.now ≤ max_d_message }
    ensures { result ≡ D (a.now ++ b.now) }
{
    let first = extended(&Hasher::empty_pool(), a);
    pool_digest_of(extended(&first, b))
}

// SHA-256 of data.
#[tactic(auto, unfolding(crate::proofs::Computing::limiting))]
pub fn sha256(data: &[u8]) -> Result<[u8; 32], TooLong>
    ensures { result ≡ within max_message (length «data».now) (sha256 «data».now) }
{
    within(MAX_MESSAGE, data.len() as u64, 0)?;
    Ok(digest_of(data))
}

// D of data: SHA-256 of the SHA-256 of a block of zeros and data.
pub fn sha_d256(data: &[u8]) -> Result<[u8; 32], TooLong>
    ensures { result ≡ within max_d_message (length «data».now) (D «data».now) }
{
    sha_d256_joined(data, b"")
}

// D of a and b joined, with no copy of either.
#[tactic(auto, unfolding(crate::proofs::Computing::limiting))]
pub fn sha_d256_joined(a: &[u8], b: &[u8]) -> Result<[u8; 32], TooLong>
    ensures { result ≡ within max_d_message (length a.now + length b.now) (D (a.now ++ b.now)) }
{
    within(MAX_D_MESSAGE, a.len() as u64, b.len() as u64)?;
    Ok(sha_d256_of(a, b))
}
