// The Fortuna generator (004, 9.4): a key and a counter that give blocks of the cipher. It ships alone.
#![tactic(auto)]

mod counter;
mod output;
mod refusal;
mod sizes;

ghost use Rattle.std.specs.Prelude.{◌≡◌, ◌+◌, ◌≤◌, length};
ghost use Rattle.laws.specs.Blocks.{block_count};
ghost use Rattle.generator.specs.Counter.{max_counter};
ghost use Rattle.generator.specs.Steps.{decode, encode, reseed, pseudo_random_data};
ghost use Rattle.generator.specs.Refusals.{malformed, unseeded, spent, max_seed, state_number, reseed_number, output_number};
ghost use Rattle.generator.specs.Operations.{number, fresh, reseed_answer, reseeded, blocks_answer, blocks_made, blocks_buffer, request_answer, requested, request_buffer};

use counter::{counter_block, value};
use laws::{all_zero, block_count};
pub use refusal::Refusal;
pub use sizes::max_request;

// Key and counter; the counter is held least significant byte first, and 0 means unseeded.
// Kept: (a) 0 for unseeded, and no Option: C has this struct, and `fresh` and `unseeded` of specs say 0.
#[repr(C)]
#[derive(Clone, Copy)]
pub struct Generator {
    pub key: [u8; 32],
    pub counter: [u8; 16],
}

// The answer, and the state that follows.
pub type Outcome = laws::Outcome<Generator, Refusal>;

impl Generator {
    // The state before any seed.
    #[tactic(auto, unfolding(crate::proofs::Accepted::starting))]
    pub fn new() -> Generator
        ensures { result ≡ fresh }
    {
        Generator {
            key: [0u8; 32],
            counter: [0u8; 16],
        }
    }

    // Whether the counter is 0.
    #[tactic(auto, unfolding(crate::specs::Refusals::unseeded, crate::specs::Steps::decode))]
    pub fn is_unseeded(&self) -> bool
        ensures { result ≡ unseeded (decode self.now) }
    {
        value(self.counter) == 0
    }

    // Whether the counter is 0 and the key is not.
    #[tactic(auto, unfolding(crate::specs::Refusals::malformed, crate::specs::Refusals::unseeded, crate::specs::Steps::decode))]
    pub fn is_malformed(&self) -> bool
        ensures { result ≡ malformed (decode self.now) }
    {
        self.is_unseeded() && !all_zero(&self.key)
    }

    // Whether the counter cannot grow by k.
    pub fn is_spent(&self, k: u32) -> bool
        ensures { result ≡ spent (decode self.now) k }
    {
        u128::MAX - value(self.counter) < u128::from(k)
    }

    // The answer where b blocks are to be made.
    // Kept: (d) beside `Standing::output_answer` of pools: the same order, but other tests, which see pools and a due reseed too.
    #[tactic(auto, unfolding(crate::specs::Operations::code, crate::specs::Refusals::state_number))]
    fn output_state_answer(&self, b: u32) -> Result<(), Refusal>
        ensures { number result ≡ state_number (decode self.now) b }
    {
        if self.is_malformed() {
            return Err(Refusal::Malformed);
        }
        if self.is_unseeded() {
            return Err(Refusal::Unseeded);
        }
        if self.is_spent(b) {
            return Err(Refusal::CounterSpent);
        }
        Ok(())
    }

    // The answer to n bytes with `more` blocks behind them.
    #[tactic(auto, unfolding(crate::specs::Operations::code, crate::specs::Refusals::output_number))]
    fn output_answer(&self, n: usize, more: u32) -> Result<(), Refusal>
        requires { more ≤ 2 }
        ensures { number result ≡ output_number (decode self.now) n more }
    {
        if n > max_request() {
            return Err(Refusal::RequestTooLong);
        }
        self.output_state_answer(block_count(n) as u32 + more)
    }

    // The answer to a reseed with n bytes.
    #[tactic(auto, unfolding(crate::specs::Operations::code, crate::specs::Refusals::reseed_number, crate::specs::Refusals::max_seed))]
    fn reseed_answer(&self, n: usize) -> Result<(), Refusal>
        ensures { number result ≡ reseed_number (decode self.now) n }
    {
        if n as u64 > hash::max_d_message() - 32 {
            return Err(Refusal::SeedTooLong);
        }
        if self.is_malformed() {
            return Err(Refusal::Malformed);
        }
        if self.is_spent(1) {
            return Err(Refusal::CounterSpent);
        }
        Ok(())
    }

    // The reseed, where it is accepted.
    fn mixed(self, seed: &[u8]) -> Generator
        requires { (length seed.now ≤ max_seed) × ((decode self).count + 1 ≤ max_counter) }
        ensures { result ≡ encode (reseed (decode self) seed.now) }
    {
        let key = hash::sha_d256_joined(&self.key, seed).unwrap();
        let counter = counter_block(value(self.counter) + 1);
        Generator { key, counter }
    }

    // The request, where it is accepted.
    fn served(self, out: &mut [u8]) -> Generator
        requires { (decode self).count + (block_count (length out.old) + 2) ≤ max_counter }
        ensures { (result ≡ encode (pseudo_random_data (decode self) (length out.old)).next)
            × (out.new ≡ (pseudo_random_data (decode self) (length out.old)).bytes) }
    {
        let mut key = [0u8; 32];
        let next = self.filled(out, &mut key);
        Generator { key, ..next }
    }

    // The key becomes D of the key followed by the seed, and the counter grows by 1.
    // Kept: (d) one end, here and in the next two: a helper would take answer, step and, for two of them, the buffer too.
    #[tactic(auto, using(crate::proofs::Accepted::accepted), unfolding(crate::proofs::Accepted::operating))]
    pub fn reseed(self, seed: &[u8]) -> Outcome
        ensures { (number result.answer ≡ reseed_answer self seed.now) × (result.next ≡ reseeded self seed.now) }
    {
        let answer = self.reseed_answer(seed.len());
        let next = if answer.is_ok() {
            self.mixed(seed)
        } else {
            self
        };
        Outcome { answer, next }
    }

    // Fills the buffer with blocks, the last cut short where needed, and keeps the key.
    #[tactic(auto, using(crate::proofs::Accepted::accepted, crate::proofs::Effects::blocks), unfolding(crate::proofs::Accepted::operating))]
    pub fn generate_blocks(self, out: &mut [u8]) -> Outcome
        ensures { (number result.answer ≡ blocks_answer self out.old)
            × (result.next ≡ blocks_made self out.old)
            × (out.new ≡ blocks_buffer self out.old) }
    {
        let answer = self.output_answer(out.len(), 0);
        let next = if answer.is_ok() {
            self.filled(out, &mut [])
        } else {
            self
        };
        Outcome { answer, next }
    }

    // Fills the buffer as generate_blocks does, then makes two blocks more, which become the key.
    #[tactic(auto, using(crate::proofs::Accepted::accepted), unfolding(crate::proofs::Accepted::operating))]
    pub fn pseudo_random_data(self, out: &mut [u8]) -> Outcome
        ensures { (number result.answer ≡ request_answer self out.old)
            × (result.next ≡ requested self out.old)
            × (out.new ≡ request_buffer self out.old) }
    {
        let answer = self.output_answer(out.len(), 2);
        let next = if answer.is_ok() {
            self.served(out)
        } else {
            self
        };
        Outcome { answer, next }
    }
}
