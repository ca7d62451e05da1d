// Blocks of the cipher by tables, written straight into the parts of a lent buffer.
ghost use Rattle.std.specs.Prelude.{◌≡◌, length, take};
ghost use Rattle.laws.specs.Blocks.{block_count};
ghost use Rattle.word_cipher.specs.Cipher.{word_cipher};
ghost use Rattle.word_cipher.specs.Tables.{tables};
ghost use Rattle.ctr_drbg.specs.Closed.{after, enciphered};

use crate::counter::increment;
use laws::{block_count, part_size};
use word_cipher::{tables, write_block};

// Fills the buffer with the blocks that follow V, which steps before each, and gives the last V.
// Kept: (d) beside `fill` of generator: this one steps V, and wraps; that one adds a block's place to the counter, up to a limit.
#[tactic(auto, unfolding(laws::specs::Blocks::block_count))]
pub(crate) fn fill(words: &[u32; 60], mut v: [u8; 16], out: &mut [u8]) -> [u8; 16]
    ensures { (result ≡ after v (block_count (length out.old)))
        × (out.new ≡ take (length out.old)
        (enciphered (word_cipher tables words.now) v (block_count (length out.old)))) }
{
    // Kept: (c) no `chunks_mut(16)`: nothing is known of what then stands in the parts.
    for k in 0..block_count(out.len()) {
        let at = 16 * k;
        let end = at + part_size(out.len() - at);
        // Kept: (c) `v = increment(v)` is not proved, since v is an array that the call is passed too.
        let next = increment(v);
        write_block(tables(), words, next, &mut out[at..end]);
        v = next;
    }
    v
}
