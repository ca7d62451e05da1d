// Fortuna: the generator with 32 pools, the timer of the pool reseeds, and seeds (004, 9.5 and 9.6).
#![tactic(auto)]

mod events;
mod refusal;
mod refusals;
mod schedule;
mod well_formed;

ghost use Rattle.std.specs.Prelude.{◌≡◌, length};
ghost use Rattle.generator.specs.Steps.{decode};
ghost use Rattle.pools.specs.State.{fresh, malformed_fields, malformed, due};
ghost use Rattle.pools.specs.Schedule.{used_pools};
ghost use Rattle.pools.specs.Effects.{next_reseed, pool_reseed, random_data};
ghost use Rattle.pools.specs.Calls.{event, request, update, write, draw, shuffle, call_number, step};
ghost use Rattle.pools.specs.Collected.{Reseedable, Servable, standing};
ghost use Rattle.pools.specs.Promises.{number, Gives, GivesBytes, Gains};

use events::gained;
pub use events::{HEADER, MAX_DATA, gained_pool};
use generator::Generator;
use hash::Hasher;
pub use refusal::Refusal;
pub use refusals::{
    MAX_TRIES, Standing, draw_input, event_answer, list_input, request_input, seed_input,
    update_input,
};
use schedule::collect_digests;
pub use schedule::counted;
pub use well_formed::any_malformed;

// The state. last_reseed is 01's mark: the reading at the last pool reseed. reseed_count is 01's reseed number, kept modulo 2^32.
// reseeded is 01's flag 'made one already', since the number comes back to 0.
// key_requests is 02's number of requests on one key: the accepted requests, seed calls and single tries included, since the last
// pool reseed or the fresh start, stopping at 65,535.
// Kept: (a) `reseeded` beside the mark and the number, and no Option: C has this struct (fortuna_state).
#[repr(C)]
#[derive(Clone, Copy)]
pub struct Fortuna {
    pub generator: Generator,
    pub pools: [Hasher; 32],
    pub last_reseed: u32,
    pub reseed_count: u32,
    pub reseeded: bool,
    pub key_requests: u16,
}

// The answer, the pools emptied, and the state that follows.
// Kept: (d) no laws::Outcome: it has no `emptied`.
#[derive(Clone, Copy)]
pub struct Outcome<S> {
    pub answer: Result<(), Refusal>,
    pub emptied: u32,
    pub next: S,
}

// What an event comes to: its answer, and the one pool to store.
// Kept: (a) place and pool beside the answer: the clauses, by `Gains`, say which pool that is on a refusal too.
#[derive(Clone, Copy)]
pub struct Gain {
    pub answer: Result<(), Refusal>,
    pub place: usize,
    pub pool: Hasher,
}

impl Fortuna {
    // The state before any event or seed.
    #[tactic(auto, unfolding(crate::specs::State::fresh, crate::specs::Events::pool_count))]
    pub fn new() -> Fortuna
        ensures { result ≡ fresh }
    {
        Fortuna {
            generator: Generator::new(),
            pools: [Hasher::empty_pool(); 32],
            last_reseed: 0,
            reseed_count: 0,
            reseeded: false,
            key_requests: 0,
        }
    }

    // Whether generator, flag, timer and the count of requests contradict each other.
    #[tactic(auto, using(crate::proofs::WellFormed::fields))]
    fn has_malformed_fields(&self) -> bool
        ensures { result ≡ malformed_fields (decode self.now.generator) self.now.reseeded self.now.last_reseed self.now.reseed_count self.now.key_requests }
    {
        let unseeded = self.generator.is_unseeded();
        self.generator.is_malformed()
            || unseeded && self.reseeded
            || !self.reseeded && (self.last_reseed != 0 || self.reseed_count != 0)
            || unseeded && self.key_requests != 0
    }

    // 21, all clauses.
    #[tactic(auto, unfolding(crate::specs::State::malformed))]
    fn is_malformed(&self) -> bool
        ensures { result ≡ malformed self.now }
    {
        any_malformed(&self.pools) || self.has_malformed_fields()
    }

    // Whether a pool reseed is due at the reading.
    #[tactic(auto, using(crate::proofs::Clock::due_is), unfolding(crate::specs::State::pool_at))]
    fn is_due(&self, clock: u32) -> bool
        ensures { result ≡ due self.now clock }
    {
        self.pools[0].length >= 64 && (!self.reseeded || clock.wrapping_sub(self.last_reseed) > 100)
    }

    // How the state stands at the reading.
    #[tactic(auto, unfolding(crate::specs::Collected::standing))]
    fn standing(&self, clock: u32) -> Standing
        ensures { result ≡ standing self.now clock }
    {
        Standing {
            malformed: self.is_malformed(),
            generator: self.generator,
            due: self.is_due(clock),
        }
    }

    // The pool reseed: the digests of the pools that it uses go into the generator, and these pools are emptied. Says how many they are.
    fn reseed(&mut self, clock: u32) -> u32
        requires { Reseedable self.old }
        ensures { (result ≡ length (used_pools (next_reseed self.old))) × (self.new ≡ pool_reseed self.old clock) }
    {
        let mut seed = [0u8; 1024];
        let number = self.reseed_count.wrapping_add(1);
        let count = collect_digests(&mut self.pools, number, &mut seed);
        self.generator = self.generator.reseed(&seed[..32 * count]).next;
        self.last_reseed = clock;
        self.reseed_count = number;
        self.reseeded = true;
        self.key_requests = 0;
        count as u32
    }

    // An accepted request: the pool reseed if due, then the generator's request. Says how many pools were emptied.
    fn serve(&mut self, reseeds: bool, clock: u32, out: &mut [u8]) -> u32
        requires { (reseeds ≡ due self.old clock) × Servable self.old clock (length out.old) }
        ensures { (result ≡ (random_data self.old clock (length out.old)).emptied)
            × (self.new ≡ (random_data self.old clock (length out.old)).next)
            × (out.new ≡ (random_data self.old clock (length out.old)).buffer) }
    {
        let emptied = if reseeds { self.reseed(clock) } else { 0 };
        self.generator = self.generator.pseudo_random_data(out).next;
        self.key_requests = counted(self.key_requests);
        emptied
    }

    // What an event from a source into a pool comes to. Where it is refused, the pool is the one that stands at the place.
    pub fn gain_of(&self, source: u32, pool: u32, data: &[u8]) -> Gain
        ensures { Gains (step self.now (event source pool «data».now)) self.now pool result }
    {
        // With no such pool the answer does not depend on what is read.
        let place = (pool % 32) as usize;
        let held = self.pools[place];
        let answer = event_answer(self.is_malformed(), held.length, source, pool, data.len());
        let pool = if answer.is_ok() {
            gained(held, source, data)
        } else {
            held
        };
        Gain {
            answer,
            place,
            pool,
        }
    }

    // An event from a source into a pool.
    pub fn add_event(mut self, source: u32, pool: u32, data: &[u8]) -> Outcome<Fortuna>
        ensures { Gives (step self (event source pool «data».now)) result }
    {
        let gain = self.gain_of(source, pool, data);
        self.pools[gain.place] = gain.pool;
        Outcome {
            answer: gain.answer,
            emptied: 0,
            next: self,
        }
    }

    // Fills the buffer with random bytes, at a reading of the clock.
    // Kept: (d) this, write_seed and update_seed differ in their check and in the reseed before; one helper that takes both as closures is longer.
    pub fn random_data(mut self, clock: u32, out: &mut [u8]) -> Outcome<Fortuna>
        ensures { GivesBytes (step self (request clock out.old)) result out.new }
    {
        let standing = self.standing(clock);
        let answer = standing.request_answer(out.len());
        let emptied = if answer.is_ok() {
            self.serve(standing.due, clock, out)
        } else {
            0
        };
        Outcome {
            answer,
            emptied,
            next: self,
        }
    }

    // Fills the 64 bytes with a new seed.
    pub fn write_seed(mut self, clock: u32, seed: &mut [u8]) -> Outcome<Fortuna>
        ensures { GivesBytes (step self (write clock seed.old)) result seed.new }
    {
        let standing = self.standing(clock);
        let answer = standing.write_answer(seed);
        let emptied = if answer.is_ok() {
            self.serve(standing.due, clock, seed)
        } else {
            0
        };
        Outcome {
            answer,
            emptied,
            next: self,
        }
    }

    // The 64 bytes reseed the generator, then a new seed overwrites them.
    pub fn update_seed(mut self, clock: u32, seed: &mut [u8]) -> Outcome<Fortuna>
        ensures { GivesBytes (step self (update clock seed.old)) result seed.new }
    {
        let standing = self.standing(clock);
        let answer = standing.update_answer(seed);
        let emptied = if answer.is_ok() {
            self.generator = self.generator.reseed(seed).next;
            self.serve(standing.due, clock, seed)
        } else {
            0
        };
        Outcome {
            answer,
            emptied,
            next: self,
        }
    }

    // The answer to a draw below n with d tries, as its one check gives it before the tries: it is never 33.
    #[tactic(auto, unfolding(crate::specs::Calls::call_number, crate::specs::State::counter_of, crate::specs::Collected::standing))]
    pub fn draw_answer(&self, clock: u32, n: u64, d: u32) -> Result<(), Refusal>
        ensures { number result ≡ call_number self.now (draw clock n d) }
    {
        self.standing(clock).draw_answer(n, d)
    }

    // The answer to a shuffle of the list, likewise.
    #[tactic(auto, unfolding(crate::specs::Calls::call_number, crate::specs::State::counter_of, crate::specs::Collected::standing))]
    pub fn shuffle_answer(&self, clock: u32, list: &[u16]) -> Result<(), Refusal>
        ensures { number result ≡ call_number self.now (shuffle clock list.now) }
    {
        self.standing(clock).shuffle_answer(list)
    }
}
