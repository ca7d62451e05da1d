// Key and V: CTR_DRBG_Update, alone and behind output under the same Key.
ghost use Rattle.std.specs.Prelude.{◌≡◌, ◌≤◌, length, take};
ghost use Rattle.laws.specs.Blocks.{block_count};
ghost use Rattle.ctr_drbg.specs.Algorithms.{seed_length, xored, padded, divided, generate_blocks, update, state_of, zero_working, prepared_by};

use crate::CtrDrbg;
use crate::output::fill;
use crate::seed::{padded, xored};
use laws::overwrite;

// Key and V.
#[derive(Clone, Copy)]
pub(crate) struct Working {
    pub key: [u8; 32],
    pub v: [u8; 16],
}

// The first 32 bytes are Key, the other 16 are V.
fn divided(temp: [u8; 48]) -> Working
    ensures { result ≡ divided temp }
{
    let mut key = [0u8; 32];
    overwrite(&mut key, &temp);
    let mut v = [0u8; 16];
    overwrite(&mut v, &temp[32..]);
    Working { key, v }
}

impl Working {
    // Key and V before the first seeding.
    #[tactic(auto, unfolding(crate::specs::Algorithms::zero_working))]
    pub(crate) fn zero() -> Working
        ensures { result ≡ zero_working }
    {
        Working {
            key: [0u8; 32],
            v: [0u8; 16],
        }
    }

    // The state that holds Key and V.
    #[tactic(auto, unfolding(crate::specs::Algorithms::state_of))]
    pub(crate) fn counted(&self, reseed_counter: u64) -> CtrDrbg
        ensures { result ≡ state_of self.now reseed_counter }
    {
        CtrDrbg {
            key: self.key,
            v: self.v,
            reseed_counter,
        }
    }

    // Fills the buffer with the blocks that follow V, then gives Key and V updated with the provided data. The key is expanded once
    // for both.
    fn filled(self, provided: [u8; 48], out: &mut [u8]) -> Working
        ensures { (result ≡ update provided (generate_blocks self (block_count (length out.old))).next)
            × (out.new ≡ take (length out.old) (generate_blocks self (block_count (length out.old))).bytes) }
    {
        let schedule = word_cipher::expand_key(self.key);
        let last = fill(&schedule.words, self.v, out);
        let mut temp = [0u8; 48];
        fill(&schedule.words, last, &mut temp);
        divided(xored(temp, provided))
    }

    // Key and V before the output: updated where there is additional input, of which there are m bytes.
    // Kept: (a) m beside the padded bytes, here and in `advanced`: `prepared_by` of specs, step 2 of a request, takes both.
    #[tactic(auto, unfolding(crate::specs::Algorithms::prepared_by, crate::specs::Algorithms::generate_blocks, laws::specs::Blocks::block_count))]
    fn prepared(self, m: usize, provided: [u8; 48]) -> Working
        ensures { result ≡ prepared_by m provided self }
    {
        if m == 0 {
            return self;
        }
        self.filled(provided, &mut [])
    }

    // Steps 2 to 6 of a request, with m bytes of additional input: the buffer is filled, and Key and V are updated. A seeding is the
    // same with none and an empty buffer.
    pub(crate) fn advanced(self, m: usize, provided: [u8; 48], out: &mut [u8]) -> Working
        ensures { (result ≡ update provided (generate_blocks (prepared_by m provided self) (block_count (length out.old))).next)
            × (out.new ≡ take (length out.old) (generate_blocks (prepared_by m provided self) (block_count (length out.old))).bytes) }
    {
        let first = self.prepared(m, provided);
        first.filled(provided, out)
    }

    // The state after a seeding from Key and V, where it is accepted.
    pub(crate) fn seeded(self, entropy: &[u8], other: &[u8]) -> CtrDrbg
        requires { (length entropy.now ≡ seed_length) × (length other.now ≤ seed_length) }
        ensures { result ≡ state_of (update (xored entropy.now (padded other.now)) self) 1 }
    {
        let material = xored(padded(entropy), padded(other));
        self.advanced(0, material, &mut []).counted(1)
    }
}
