// Fortuna with the pools chosen by key: the scheduler of source document 000, figure 6.
#![tactic(auto)]

mod scheduler;

ghost use Rattle.std.specs.Prelude.{◌≡◌, length};
ghost use Rattle.generator.specs.Steps.{decode};
ghost use Rattle.pools.specs.Events.{event_bytes};
ghost use Rattle.pools.specs.Promises.{number, Gives, GivesBytes};
ghost use Rattle.keyed.specs.State.{fresh, picked, counter_of, malformed_fields, malformed, standing};
ghost use Rattle.keyed.specs.Refusals.{step_number, event_number};
ghost use Rattle.keyed.specs.Effects.{emptied_into, add_event, random_data};
ghost use Rattle.keyed.specs.Calls.{event, request, update, write, call_number, step};
ghost use Rattle.keyed.specs.Promises.{Emptiable, Servable};

use generator::Generator;
use hash::Hasher;
use pools::{Outcome, Refusal, Standing, any_malformed, counted, event_answer, gained_pool};
pub use scheduler::{emptied_at, input_pool};
use scheduler::{empties, output_pool};

// The state. scheduler_key is the key given to the fresh start, step is 02's t: the step of the next event. key_requests is 02's number of
// requests on one key: those accepted since the last emptying or the fresh start, seed calls included, stopping at 65,535. 01's mark, reseed
// number and flag (last_reseed, reseed_count, reseeded) stay at 0: no clock applies.
// Kept: (a) the fields and methods of Fortuna again: C has both structs, and the clauses of each crate name its own state and calls.
// Kept: (a) `reseeded` beside the mark and the number, and no Option: C has this struct.
#[repr(C)]
#[derive(Clone, Copy)]
pub struct Keyed {
    pub generator: Generator,
    pub pools: [Hasher; 32],
    pub last_reseed: u32,
    pub reseed_count: u32,
    pub reseeded: bool,
    pub key_requests: u16,
    pub scheduler_key: [u8; 32],
    pub step: u64,
}

impl Keyed {
    // The fresh start under a scheduler key.
    #[tactic(auto, unfolding(crate::specs::State::fresh, pools::specs::Events::pool_count))]
    pub fn new(scheduler_key: [u8; 32]) -> Keyed
        ensures { result ≡ fresh scheduler_key }
    {
        Keyed {
            generator: Generator::new(),
            pools: [Hasher::empty_pool(); 32],
            last_reseed: 0,
            reseed_count: 0,
            reseeded: false,
            key_requests: 0,
            scheduler_key,
            step: 0,
        }
    }

    // Whether generator, timer and the count of requests contradict each other: the timer stays at 0.
    #[tactic(auto, using(crate::proofs::Acceptance::fields))]
    fn has_malformed_fields(&self) -> bool
        ensures { result ≡ malformed_fields (decode self.now.generator) self.now.reseeded self.now.last_reseed self.now.reseed_count self.now.key_requests }
    {
        self.generator.is_malformed()
            || self.reseeded
            || self.last_reseed != 0
            || self.reseed_count != 0
            || self.generator.is_unseeded() && self.key_requests != 0
    }

    // 21, all clauses.
    #[tactic(auto, unfolding(crate::specs::State::malformed))]
    fn is_malformed(&self) -> bool
        ensures { result ≡ malformed self.now }
    {
        any_malformed(&self.pools) || self.has_malformed_fields()
    }

    // How the state stands: no pool reseed is ever due.
    #[tactic(auto, unfolding(crate::specs::State::standing))]
    fn standing(&self) -> Standing
        ensures { result ≡ standing self.now }
    {
        Standing {
            malformed: self.is_malformed(),
            generator: self.generator,
            due: false,
        }
    }

    // The answer to the state's step.
    #[tactic(auto, using(crate::proofs::Acceptance::spent_once), unfolding(crate::specs::Refusals::step_number, crate::specs::Refusals::max_step))]
    fn step_answer(&self) -> Result<(), Refusal>
        ensures { number result ≡ step_number (decode self.now.generator).count self.now.step }
    {
        if self.step == u64::MAX {
            return Err(Refusal::StepsSpent);
        }
        if empties(self.step) && self.generator.is_spent(1) {
            return Err(Refusal::CounterSpent);
        }
        Ok(())
    }

    // The answer to an event of n bytes of data, where the pool that the step picks holds `size` bytes.
    fn event_answer(&self, size: u64, source: u32, n: usize) -> Result<(), Refusal>
        ensures { number result ≡ event_number (malformed self.now) size source n (counter_of self.now) self.now.step }
    {
        // The event names no pool, so any of the 32 may stand for it.
        event_answer(self.is_malformed(), size, source, 0, n)?;
        self.step_answer()
    }

    // Pool i goes into the key, by a reseed with its digest.
    fn empty_into(&mut self, i: usize)
        requires { Emptiable self.old i }
        ensures { self.new ≡ emptied_into self.old i }
    {
        let digest = self.pools[i].pool_digest().unwrap();
        self.generator = self.generator.reseed(&digest).next;
        self.pools[i] = Hasher::empty_pool();
        self.key_requests = 0;
    }

    // An accepted event. Says how many pools its step emptied.
    fn take(&mut self, place: usize, source: u32, data: &[u8]) -> u32
        requires { (place ≡ picked self.old) × (call_number self.old (event source «data».now) ≡ 0) }
        ensures { (result ≡ (add_event self.old (event_bytes source «data».now)).emptied)
            × (self.new ≡ (add_event self.old (event_bytes source «data».now)).next) }
    {
        self.pools[place] = gained_pool(self.pools[place], source, data);
        let reseeds = empties(self.step);
        if reseeds {
            self.empty_into(output_pool(self.step) as usize);
        }
        self.step += 1;
        u32::from(reseeds)
    }

    // An event from a source, into the pool that the step picks.
    pub fn add_event(mut self, source: u32, data: &[u8]) -> Outcome<Keyed>
        ensures { Gives (step self (event source «data».now)) result }
    {
        let place = input_pool(self.scheduler_key, self.step) as usize;
        let answer = self.event_answer(self.pools[place].length, source, data.len());
        let emptied = if answer.is_ok() {
            self.take(place, source, data)
        } else {
            0
        };
        Outcome {
            answer,
            emptied,
            next: self,
        }
    }

    // Bytes made from K and C, and one request more on the key.
    fn serve(&mut self, out: &mut [u8])
        requires { Servable self.old.generator (length out.old) }
        ensures { (self.new ≡ (random_data self.old (length out.old)).next) × (out.new ≡ (random_data self.old (length out.old)).buffer) }
    {
        self.generator = self.generator.pseudo_random_data(out).next;
        self.key_requests = counted(self.key_requests);
    }

    // Fills the buffer with random bytes.
    // Kept: (a) fixed memory: this, write_seed and update_seed end alike; by one function for it this takes 18,184 bytes of stack, and now 11,256.
    pub fn random_data(mut self, out: &mut [u8]) -> Outcome<Keyed>
        ensures { GivesBytes (step self (request out.old)) result out.new }
    {
        let answer = self.standing().request_answer(out.len());
        if answer.is_ok() {
            self.serve(out);
        }
        Outcome {
            answer,
            emptied: 0,
            next: self,
        }
    }

    // Fills the 64 bytes with a new seed.
    pub fn write_seed(mut self, seed: &mut [u8]) -> Outcome<Keyed>
        ensures { GivesBytes (step self (write seed.old)) result seed.new }
    {
        let answer = self.standing().write_answer(seed);
        if answer.is_ok() {
            self.serve(seed);
        }
        Outcome {
            answer,
            emptied: 0,
            next: self,
        }
    }

    // The 64 bytes reseed the generator, then a new seed overwrites them.
    pub fn update_seed(mut self, seed: &mut [u8]) -> Outcome<Keyed>
        ensures { GivesBytes (step self (update seed.old)) result seed.new }
    {
        let answer = self.standing().update_answer(seed);
        if answer.is_ok() {
            self.generator = self.generator.reseed(seed).next;
            self.serve(seed);
        }
        Outcome {
            answer,
            emptied: 0,
            next: self,
        }
    }
}
