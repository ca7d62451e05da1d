// CTR_DRBG of NIST SP 800-90A (10.2.1) with AES-256 and no derivation function, for permanent stations. Its state has nothing to do
// with pools or timer.
#![tactic(auto)]

mod counter;
mod output;
mod refusal;
mod seed;
mod update;

ghost use Rattle.std.specs.Prelude.{◌≡◌, ◌≤◌, length};
ghost use Rattle.ctr_drbg.specs.Algorithms.{seed_length, working, generate};
ghost use Rattle.ctr_drbg.specs.Refusals.{reseed_interval, instantiate_number, reseed_number, generate_number};
ghost use Rattle.ctr_drbg.specs.Operations.{number, fresh, instantiate_answer, instantiated, reseed_answer, reseeded, generate_answer, generated, generate_buffer};

pub use refusal::Refusal;
use seed::padded;
use update::Working;

const SEED_LENGTH: usize = 48;

const MAX_REQUEST: usize = 65536;

const RESEED_INTERVAL: u64 = 1 << 48;

// Key, V and the reseed counter, which is 0 before the first seeding. Any bytes may stand in it.
// Kept: (a) key and v side by side, and no Working: C has this struct.
// Kept: (a) 0 for never seeded, and no Option: C has this struct, and `fresh` and `never_seeded` of specs say 0.
#[repr(C)]
#[derive(Clone, Copy)]
pub struct CtrDrbg {
    pub key: [u8; 32],
    pub v: [u8; 16],
    pub reseed_counter: u64,
}

// The answer, and the state that follows.
pub type Outcome = laws::Outcome<CtrDrbg, Refusal>;

// The answer to a first seeding with n bytes of entropy input and m of personalization string.
#[tactic(auto, unfolding(crate::proofs::Accepted::testing))]
fn instantiate_answer(n: usize, m: usize) -> Result<(), Refusal>
    ensures { number result ≡ instantiate_number n m }
{
    if n != SEED_LENGTH {
        return Err(Refusal::EntropyLength);
    }
    if m > SEED_LENGTH {
        return Err(Refusal::InputTooLong);
    }
    Ok(())
}

// The answer to a reseed with n bytes of entropy input and m of additional input.
#[tactic(auto, unfolding(crate::proofs::Accepted::testing))]
fn reseed_answer(counter: u64, n: usize, m: usize) -> Result<(), Refusal>
    ensures { number result ≡ reseed_number counter n m }
{
    instantiate_answer(n, m)?;
    if counter == 0 {
        return Err(Refusal::SeedingNeeded);
    }
    Ok(())
}

// The answer to a request of n bytes with m bytes of additional input.
#[tactic(auto, unfolding(crate::proofs::Accepted::testing))]
fn generate_answer(counter: u64, n: usize, m: usize) -> Result<(), Refusal>
    ensures { number result ≡ generate_number counter n m }
{
    if m > SEED_LENGTH {
        return Err(Refusal::InputTooLong);
    }
    if n > MAX_REQUEST {
        return Err(Refusal::RequestTooLong);
    }
    if counter == 0 || counter > RESEED_INTERVAL {
        return Err(Refusal::SeedingNeeded);
    }
    Ok(())
}

impl CtrDrbg {
    // The state before any seeding.
    #[tactic(auto, unfolding(crate::specs::Operations::fresh, crate::specs::Algorithms::state_of, crate::specs::Algorithms::zero_working))]
    pub fn new() -> CtrDrbg
        ensures { result ≡ fresh }
    {
        CtrDrbg {
            key: [0u8; 32],
            v: [0u8; 16],
            reseed_counter: 0,
        }
    }

    // Key and V.
    #[tactic(auto, unfolding(crate::specs::Algorithms::working))]
    fn working(&self) -> Working
        ensures { result ≡ working self.now }
    {
        Working {
            key: self.key,
            v: self.v,
        }
    }

    // The request, where it is accepted.
    fn served(self, out: &mut [u8], additional: &[u8]) -> CtrDrbg
        requires { (self.reseed_counter ≤ reseed_interval) × (length additional.now ≤ seed_length) }
        ensures { (result ≡ (generate self (length out.old) additional.now).next)
            × (out.new ≡ (generate self (length out.old) additional.now).bytes) }
    {
        let next = self
            .working()
            .advanced(additional.len(), padded(additional), out);
        next.counted(self.reseed_counter + 1)
    }

    // A first seeding, or one that starts anew: 48 bytes of entropy input, up to 48 of personalization string.
    // Kept: (d) one end, here and in the next two: a helper would take answer, step and, for one of them, the buffer too.
    #[tactic(auto, using(crate::proofs::Accepted::accepted), unfolding(crate::proofs::Accepted::operating))]
    pub fn instantiate(self, entropy: &[u8], personalization: &[u8]) -> Outcome
        ensures { (number result.answer ≡ instantiate_answer entropy.now personalization.now)
            × (result.next ≡ instantiated self entropy.now personalization.now) }
    {
        let answer = instantiate_answer(entropy.len(), personalization.len());
        let next = if answer.is_ok() {
            Working::zero().seeded(entropy, personalization)
        } else {
            self
        };
        Outcome { answer, next }
    }

    // A reseed of a state that was seeded: 48 bytes of entropy input, up to 48 of additional input.
    #[tactic(auto, using(crate::proofs::Accepted::accepted), unfolding(crate::proofs::Accepted::operating))]
    pub fn reseed(self, entropy: &[u8], additional: &[u8]) -> Outcome
        ensures { (number result.answer ≡ reseed_answer self entropy.now additional.now)
            × (result.next ≡ reseeded self entropy.now additional.now) }
    {
        let answer = reseed_answer(self.reseed_counter, entropy.len(), additional.len());
        let next = if answer.is_ok() {
            self.working().seeded(entropy, additional)
        } else {
            self
        };
        Outcome { answer, next }
    }

    // Fills the buffer, with up to 48 bytes of additional input.
    #[tactic(auto, using(crate::proofs::Accepted::accepted), unfolding(crate::proofs::Accepted::operating))]
    pub fn generate(self, out: &mut [u8], additional: &[u8]) -> Outcome
        ensures { (number result.answer ≡ generate_answer self out.old additional.now)
            × (result.next ≡ generated self out.old additional.now)
            × (out.new ≡ generate_buffer self out.old additional.now) }
    {
        let answer = generate_answer(self.reseed_counter, out.len(), additional.len());
        let next = if answer.is_ok() {
            self.served(out, additional)
        } else {
            self
        };
        Outcome { answer, next }
    }
}
