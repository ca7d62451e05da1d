// SHA-256 of a message that comes in parts.
ghost use Rattle.std.specs.Prelude.{◌≡◌, ◌+◌, ◌≤◌, length};
ghost use Rattle.std.specs.List.{fold};
ghost use Rattle.hash.specs.Block.{compress};
ghost use Rattle.hash.specs.Hasher.{empty_hasher, absorb_from, absorb, finish};
ghost use Rattle.hash.specs.ShaD.{max_message, max_pool_length, empty_pool, pool_digest};
ghost use Rattle.hash.specs.Answers.{within, absorbed};

use crate::answer::{MAX_MESSAGE, MAX_POOL_LENGTH, TooLong, within};
use crate::block::compress;
use crate::bytes::digest_bytes;
use crate::digest::pool_digest_of;
use crate::tail::{filled, with_length};

// The hash value over the whole blocks so far, the bytes after them with zeros behind, and the count of all bytes. A pool's hash
// value is over the block of zeros too, which its count leaves out.
// Kept: (a) a tail of 64 bytes and a length: C has this struct, and 01 keeps a pool as hash, tail and length.
#[repr(C)]
#[derive(Clone, Copy)]
pub struct Hasher {
    pub chain: [u32; 8],
    pub tail: [u8; 64],
    pub length: u64,
}

// The answer and the next state.
pub type Outcome = laws::Outcome<Hasher, TooLong>;

const INITIAL: [u32; 8] = [
    0x6a09_e667,
    0xbb67_ae85,
    0x3c6e_f372,
    0xa54f_f53a,
    0x510e_527f,
    0x9b05_688c,
    0x1f83_d9ab,
    0x5be0_cd19,
];

// The hash value after the block of zeros that D has before every message: what a pool starts from.
const AFTER_ZEROS: [u32; 8] = [
    0xda56_98be,
    0x17b9_b469,
    0x6233_5799,
    0x779f_beca,
    0x8ce5_d491,
    0xc0d2_6243,
    0xbafe_f9ea,
    0x1837_a9d8,
];

// The hash value after the whole blocks of data, each read where it stands.
fn hash_blocks(chain: [u32; 8], blocks: &[[u8; 64]]) -> [u32; 8]
    ensures { result ≡ fold compress chain blocks.now }
{
    blocks.iter().fold(chain, compress)
}

// The state after the whole blocks of data, with the rest of data kept.
fn after_blocks(chain: [u32; 8], data: &[u8], length: u64) -> Hasher
    ensures { result ≡ absorb_from chain «data».now length }
{
    let (blocks, rest) = data.as_chunks::<64>();
    Hasher {
        chain: hash_blocks(chain, blocks),
        tail: filled(b"", rest),
        length,
    }
}

// The state after data, where the message stays within the limit.
pub(crate) fn extended(r: &Hasher, data: &[u8]) -> Hasher
    requires { r.now.length + length «data».now ≤ max_message }
    ensures { result ≡ absorb r.now «data».now }
{
    let at = (r.length % 64) as usize;
    let length = r.length + data.len() as u64;
    let room = 64 - at;
    if data.len() < room {
        return Hasher {
            chain: r.chain,
            tail: filled(&r.tail[..at], data),
            length,
        };
    }
    if at == 0 {
        return after_blocks(r.chain, data, length);
    }
    let block = filled(&r.tail[..at], &data[..room]);
    after_blocks(compress(r.chain, &block), &data[room..], length)
}

// The digest of what r has absorbed, whatever its length.
pub(crate) fn finished(r: &Hasher) -> [u8; 32]
    ensures { result ≡ finish r.now }
{
    let at = (r.length % 64) as usize;
    let marked = filled(&r.tail[..at], &[128u8]);
    if at < 56 {
        let last = with_length(marked, r.length);
        return digest_bytes(compress(r.chain, &last));
    }
    let last = with_length([0u8; 64], r.length);
    digest_bytes(compress(compress(r.chain, &marked), &last))
}

impl Hasher {
    // The state before any byte.
    pub fn new() -> Hasher
        ensures { result ≡ empty_hasher }
    {
        Hasher {
            chain: INITIAL,
            tail: [0u8; 64],
            length: 0,
        }
    }

    // The state of a pool before any byte, for pool_digest.
    #[tactic(auto, unfolding(crate::specs::ShaD::empty_pool, crate::specs::ShaD::zero_block_hash))]
    pub fn empty_pool() -> Hasher
        ensures { result ≡ empty_pool }
    {
        Hasher {
            chain: AFTER_ZEROS,
            tail: [0u8; 64],
            length: 0,
        }
    }

    // The state after data, or the refusal of a message above the limit.
    // Kept: (d) one end as generator's calls have: a helper would take answer, state and step.
    #[tactic(auto, unfolding(crate::proofs::Computing::limiting, crate::specs::Answers::absorbed))]
    pub fn absorb(self, data: &[u8]) -> Outcome
        ensures { (result.answer ≡ within max_message (self.length + length «data».now) tt)
            × (result.next ≡ absorbed self «data».now) }
    {
        let answer = within(MAX_MESSAGE, self.length, data.len() as u64);
        let next = if answer.is_ok() {
            extended(&self, data)
        } else {
            self
        };
        Outcome { answer, next }
    }

    // The digest of what was absorbed. A length above the limit is refused.
    #[tactic(auto, unfolding(crate::proofs::Computing::limiting))]
    pub fn finish(self) -> Result<[u8; 32], TooLong>
        ensures { result ≡ within max_message self.length (finish self) }
    {
        within(MAX_MESSAGE, self.length, 0)?;
        Ok(finished(&self))
    }

    // D of what a pool has absorbed. A length above the limit is refused.
    #[tactic(auto, unfolding(crate::proofs::Computing::limiting))]
    pub fn pool_digest(self) -> Result<[u8; 32], TooLong>
        ensures { result ≡ within max_pool_length self.length (pool_digest self) }
    {
        within(MAX_POOL_LENGTH, self.length, 0)?;
        Ok(pool_digest_of(self))
    }
}
