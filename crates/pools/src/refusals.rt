// The answer of each call: by its input, and by how the state stands. Input numbers come before state numbers, within each list the lower first.
ghost use Rattle.std.specs.Prelude.{◌≡◌, ◌≤◌, length};
ghost use Rattle.generator.specs.Steps.{decode};
ghost use Rattle.pools.specs.Pool.{full};
ghost use Rattle.pools.specs.Refusals.{event_number, request_input, seed_input, blank, update_input, draw_input, list_input};
ghost use Rattle.pools.specs.Refusals.{unseeded, spent, output_state, request_number, write_number, update_number, draw_number, shuffle_number};
ghost use Rattle.pools.specs.Promises.{number};

use crate::events::{HEADER, MAX_DATA};
use crate::refusal::Refusal;
use generator::{Generator, max_request};
use laws::block_count;
use slots::has_repeat;

const MAX_SOURCE: u32 = 65535;

const LAST_POOL: u32 = 31;

// The bytes of a seed.
const SEED_SIZE: usize = 64;

// The largest n of a draw: 2^32.
const MAX_BELOW: u64 = 4294967296;

// The most tries of a draw.
pub const MAX_TRIES: u32 = 64;

// The most numbers of a list to shuffle.
const MAX_LIST: usize = 256;

// Whether a pool of `size` bytes has no room for n more. The sum itself might not fit.
#[tactic(auto, unfolding(crate::specs::Pool::full))]
fn is_full(size: u64, n: u64) -> bool
    ensures { result ≡ full size n }
{
    let most = hash::max_pool_length();
    n > most || size > most - n
}

// The answer to an event of n bytes of data, where its pool holds `size` bytes.
// Kept: (a) five values: the clause, by `event_number`, is of these.
#[tactic(auto, using(crate::proofs::Asked::event))]
pub fn event_answer(
    malformed: bool,
    size: u64,
    source: u32,
    pool: u32,
    n: usize,
) -> Result<(), Refusal>
    ensures { number result ≡ event_number malformed size source pool n }
{
    if source > MAX_SOURCE {
        return Err(Refusal::SourceOutOfRange);
    }
    if pool > LAST_POOL {
        return Err(Refusal::PoolOutOfRange);
    }
    if n == 0 || n > MAX_DATA {
        return Err(Refusal::DataLength);
    }
    if malformed {
        return Err(Refusal::Malformed);
    }
    if is_full(size, (HEADER + n) as u64) {
        return Err(Refusal::PoolFull);
    }
    Ok(())
}

// The answer to a request of n bytes by its input alone, as it stands before the state is looked at.
#[tactic(auto, unfolding(crate::specs::Refusals::request_input))]
pub fn request_input(n: usize) -> Result<(), Refusal>
    ensures { number result ≡ request_input n }
{
    if n > max_request() {
        return Err(Refusal::RequestTooLong);
    }
    Ok(())
}

// The answer to a seed write on the lent bytes, by these alone.
#[tactic(auto, unfolding(crate::specs::Refusals::seed_input, crate::specs::Refusals::seed_size))]
pub fn seed_input(seed: &[u8]) -> Result<(), Refusal>
    ensures { number result ≡ seed_input seed.now }
{
    if seed.len() != SEED_SIZE {
        return Err(Refusal::SeedSize);
    }
    Ok(())
}

// Whether the 64 bytes are all equal. All of them are looked at, whatever the first ones are: a seed is secret.
// Kept: (a) a loop to a fixed end: `iter().fold` and `for byte in seed` became tests that end at the first other byte (tests/compiled/key_bits).
fn is_blank(seed: &[u8]) -> bool
    requires { length seed.now ≡ 64 }
    ensures { result ≡ blank seed.now }
{
    let first = seed[0];
    let mut differing = 0u8;
    for i in 0..SEED_SIZE {
        differing |= seed[i] ^ first;
    }
    differing == 0
}

// The answer to a seed update on the lent bytes, by these alone.
#[tactic(auto, using(crate::proofs::Asked::seed), unfolding(crate::specs::Refusals::update_input, crate::specs::Refusals::and_then))]
pub fn update_input(seed: &[u8]) -> Result<(), Refusal>
    ensures { number result ≡ update_input seed.now }
{
    seed_input(seed)?;
    if is_blank(seed) {
        return Err(Refusal::BlankSeed);
    }
    Ok(())
}

// The answer to a draw below n with d tries, by these alone.
#[tactic(auto, unfolding(crate::specs::Refusals::draw_input, crate::specs::Refusals::max_below, crate::specs::Refusals::max_tries))]
pub fn draw_input(n: u64, d: u32) -> Result<(), Refusal>
    ensures { number result ≡ draw_input n d }
{
    if n == 0 || n > MAX_BELOW {
        return Err(Refusal::SlotRange);
    }
    if d == 0 || d > MAX_TRIES {
        return Err(Refusal::TryRange);
    }
    Ok(())
}

// The answer to a shuffle of the list, by that alone. A list that is too long is not searched for repeats.
#[tactic(auto, unfolding(crate::specs::Refusals::list_input, crate::specs::Refusals::max_list))]
pub fn list_input(list: &[u16]) -> Result<(), Refusal>
    ensures { number result ≡ list_input list.now }
{
    if list.len() > MAX_LIST || has_repeat(list) {
        return Err(Refusal::SlotRange);
    }
    Ok(())
}

// How a state stands when a call finds it: whether it is malformed, its generator, and whether a pool reseed is due. A call that makes
// blocks is answered by this and its own arguments.
#[derive(Clone, Copy)]
pub struct Standing {
    pub malformed: bool,
    pub generator: Generator,
    pub due: bool,
}

impl Standing {
    // Whether there is no key: the counter is 0, and no pool reseed is due.
    #[tactic(auto, using(crate::proofs::WellFormed::no_key), unfolding(crate::specs::Refusals::unseeded))]
    fn is_unseeded(self) -> bool
        ensures { result ≡ unseeded (decode self.generator).count self.due }
    {
        !self.due && self.generator.is_unseeded()
    }

    // Whether the counter cannot grow by b blocks, with the pool reseed before them where it is due.
    #[tactic(auto, using(crate::proofs::Room::grown))]
    fn is_spent(self, b: u32) -> bool
        requires { b ≤ 65538 }
        ensures { result ≡ spent (decode self.generator).count self.due b }
    {
        self.generator.is_spent(u32::from(self.due) + b)
    }

    // The answer where b blocks are to be made.
    // Kept: (d) the generator has these three tests of its own state: one helper would take each test and each refusal, and is longer.
    #[tactic(auto, unfolding(crate::specs::Refusals::output_state))]
    fn output_answer(self, b: u32) -> Result<(), Refusal>
        requires { b ≤ 65538 }
        ensures { number result ≡ output_state self.malformed (decode self.generator).count self.due b }
    {
        if self.malformed {
            return Err(Refusal::Malformed);
        }
        if self.is_unseeded() {
            return Err(Refusal::Unseeded);
        }
        if self.is_spent(b) {
            return Err(Refusal::CounterSpent);
        }
        Ok(())
    }

    // The answer to a request of n bytes.
    #[tactic(auto, using(crate::proofs::Asked::blocks), unfolding(crate::specs::Refusals::request_number, crate::specs::Refusals::and_then))]
    pub fn request_answer(self, n: usize) -> Result<(), Refusal>
        ensures { number result ≡ request_number self.malformed (decode self.generator).count self.due n }
    {
        request_input(n)?;
        self.output_answer(block_count(n) as u32 + 2)
    }

    // The answer to a seed write on the lent bytes: a request of as many.
    #[tactic(auto, using(crate::proofs::Asked::page), unfolding(crate::specs::Refusals::write_number, crate::specs::Refusals::and_then))]
    pub fn write_answer(self, seed: &[u8]) -> Result<(), Refusal>
        ensures { number result ≡ write_number self.malformed (decode self.generator).count self.due seed.now }
    {
        seed_input(seed)?;
        self.request_answer(SEED_SIZE)
    }

    // The answer to a seed update on the lent bytes.
    #[tactic(auto, unfolding(crate::specs::Refusals::update_number, crate::specs::Refusals::update_state, crate::specs::Refusals::and_then))]
    pub fn update_answer(self, seed: &[u8]) -> Result<(), Refusal>
        ensures { number result ≡ update_number self.malformed (decode self.generator).count self.due seed.now }
    {
        update_input(seed)?;
        if self.malformed {
            return Err(Refusal::Malformed);
        }
        if self.is_spent(7) {
            return Err(Refusal::CounterSpent);
        }
        Ok(())
    }

    // The answer to a draw below n with d tries, as its check gives it: 33 comes only of the tries.
    #[tactic(auto, using(crate::proofs::Asked::tries), unfolding(crate::specs::Refusals::draw_number, crate::specs::Refusals::and_then))]
    pub(crate) fn draw_answer(self, n: u64, d: u32) -> Result<(), Refusal>
        ensures { number result ≡ draw_number self.malformed (decode self.generator).count self.due n d }
    {
        draw_input(n, d)?;
        self.output_answer(3 * d)
    }

    // The answer to a shuffle of the list, as its check gives it.
    #[tactic(auto, using(crate::proofs::Asked::listed, crate::proofs::Asked::shuffle), unfolding(crate::specs::Refusals::and_then))]
    pub(crate) fn shuffle_answer(self, list: &[u16]) -> Result<(), Refusal>
        ensures { number result ≡ shuffle_number self.malformed (decode self.generator).count self.due list.now }
    {
        list_input(list)?;
        let count = list.len();
        if count < 2 {
            if self.malformed {
                return Err(Refusal::Malformed);
            }
            return Ok(());
        }
        self.output_answer(3 * MAX_TRIES * (count - 1) as u32)
    }
}
