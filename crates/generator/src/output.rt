// Blocks of the cipher by tables, written straight into the parts of a lent buffer.
ghost use Rattle.std.specs.Prelude.{◌≡◌, ◌+◌, ◌≤◌, length, take};
ghost use Rattle.laws.specs.Blocks.{block_count};
ghost use Rattle.word_cipher.specs.Cipher.{word_cipher};
ghost use Rattle.word_cipher.specs.Tables.{tables};
ghost use Rattle.generator.specs.Counter.{max_counter};
ghost use Rattle.generator.specs.Steps.{decode, encode};
ghost use Rattle.generator.specs.Closed.{counters, enciphered, bytes_from, after_blocks};

use crate::Generator;
use crate::counter::{counter_block, value};
use laws::{block_count, part_size};
use word_cipher::{tables, write_block};

// Fills the buffer with the blocks from a counter on.
// Kept: (d) beside `fill` of ctr_drbg: this one adds a block's place to the counter, up to a limit; that one steps V, and wraps.
#[tactic(auto, unfolding(laws::specs::Blocks::block_count))]
fn fill(words: &[u32; 60], first: u128, out: &mut [u8])
    requires { first + block_count (length out.old) ≤ max_counter }
    ensures { out.new ≡ take (length out.old)
        (enciphered (word_cipher tables words.now) (counters first (block_count (length out.old)))) }
{
    // Kept: (c) no `chunks_mut(16)`: nothing is known of what then stands in the parts.
    for k in 0..block_count(out.len()) {
        let at = 16 * k;
        let end = at + part_size(out.len() - at);
        write_block(
            tables(),
            words,
            counter_block(first + k as u128),
            &mut out[at..end],
        );
    }
}

impl Generator {
    // Fills two buffers in turn with the blocks under the key from the counter on, and gives the state that follows, with the same
    // key. The key is expanded once for both.
    pub(crate) fn filled(self, out: &mut [u8], more: &mut [u8]) -> Generator
        requires { (decode self).count + (block_count (length out.old) + block_count (length more.old)) ≤ max_counter }
        ensures { (result ≡ encode (after_blocks (decode self) (block_count (length out.old) + block_count (length more.old))))
            × (out.new ≡ bytes_from self.key (decode self).count (length out.old))
            × (more.new ≡ bytes_from self.key ((decode self).count + block_count (length out.old)) (length more.old)) }
    {
        let first = value(self.counter);
        let second = first + block_count(out.len()) as u128;
        let counter = counter_block(second + block_count(more.len()) as u128);
        let schedule = word_cipher::expand_key(self.key);
        fill(&schedule.words, first, out);
        fill(&schedule.words, second, more);
        Generator { counter, ..self }
    }
}
