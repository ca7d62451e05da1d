// What a call of the tests refuses: a cutoff out of range (34), a malformed state (35).
ghost use Rattle.std.specs.Prelude.{◌≡◌, not, ◌&&◌, ◌||◌, eqb, ltb};
ghost use Rattle.health.specs.Calls.{code, code-above-0, out_of_range, malformed, checked};

use crate::{HealthState, WINDOW};
use laws::Numbered;

#[derive(Clone, Copy)]
pub enum Refusal {
    CutoffRange = 34,
    Malformed = 35,
}

impl Numbered for Refusal {
    ghost code = { code };

    ghost above_0 = { code-above-0 };

    fn number(self) -> u32 {
        self as u32
    }
}

// The cutoffs of the repetition count test and of the adaptive proportion test.
#[derive(Clone, Copy)]
pub(crate) struct Cutoffs {
    pub(crate) repetition: u32,
    pub(crate) proportion: u32,
}

impl Cutoffs {
    // The cutoffs are looked at first, then the state.
    pub(crate) fn check(self, state: HealthState) -> Result<(), Refusal>
        ensures { result ≡ checked self.repetition self.proportion state }
    {
        if out_of_range(self.repetition) || out_of_range(self.proportion) {
            return Err(Refusal::CutoffRange);
        }
        if self.is_malformed(state) {
            return Err(Refusal::Malformed);
        }
        Ok(())
    }

    // 35: each clause of 02 names a kind of state that no run with these cutoffs leaves.
    #[tactic(auto, unfolding(crate::specs::Calls::malformed))]
    fn is_malformed(self, state: HealthState) -> bool
        ensures { result ≡ malformed self.repetition self.proportion state }
    {
        self.repetition <= state.run
            || self.proportion <= state.count
            || state.seen < state.count
            || WINDOW <= state.seen
            || is_uncounted(state)
            || is_stray(state.seen, state.first)
            || is_stray(state.run, state.last)
    }
}

// 34: a cutoff below 2 or above 512.
fn out_of_range(cutoff: u32) -> bool
    ensures { result ≡ out_of_range cutoff }
{
    !(2..=WINDOW).contains(&cutoff)
}

// Some samples seen, but count or run length 0.
fn is_uncounted(state: HealthState) -> bool
    ensures { result ≡ (ltb 0 state.seen && (eqb state.count 0 || eqb state.run 0)) }
{
    0 < state.seen && (state.count == 0 || state.run == 0)
}

// Of a number 0 of samples, a sample that is not 0.
fn is_stray(number: u32, sample: u32) -> bool
    ensures { result ≡ (eqb number 0 && not (eqb sample 0)) }
{
    number == 0 && sample != 0
}
