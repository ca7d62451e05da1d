// The tests under way: what both count with a sample, and the state after it.
ghost use Rattle.std.specs.Prelude.{◌≡◌, ◌+◌, ◌<◌, ◌≤◌, true, false, cond, eqb, IfOk, IfErr};
ghost use Rattle.health.specs.Samples.{run_after, first_after, count_after, repetition_fails, proportion_fails, fails, noted, failure, test_from};

use crate::refusals::Cutoffs;
use crate::{Failure, HealthState, WINDOW};

// What a call that is not refused goes on with: a state below its cutoffs.
#[derive(Clone, Copy)]
pub(crate) struct Tests {
    pub(crate) cutoffs: Cutoffs,
    pub(crate) state: HealthState,
    ghost cutoffs_in_range: { (cutoffs.repetition ≤ 512) × (0 < cutoffs.proportion) × (cutoffs.proportion ≤ 512) },
    ghost below: { (state.run < cutoffs.repetition) × (state.count < cutoffs.proportion) × (state.seen < 512) },
}

impl Tests {
    // The samples in turn, up to the first that fails; where none does, the state after all.
    #[tactic(auto, using(crate::proofs::Walks::stops_here, crate::proofs::Walks::goes_on, crate::proofs::Walks::walk_end))]
    pub(crate) fn walk(mut self, samples: &[u32]) -> Result<HealthState, Failure>
        ensures { result ≡ test_from self.cutoffs.repetition self.cutoffs.proportion 0 self.state samples.now }
    {
        for (place, sample) in samples.iter().enumerate() {
            self.note(place, *sample)?;
        }
        Ok(self.state)
    }

    // One sample more.
    #[tactic(auto, unfolding(crate::specs::Samples::repetition_fails, crate::specs::Samples::proportion_fails, crate::specs::Samples::noted))]
    fn note(&mut self, place: usize, sample: u32) -> Result<(), Failure>
        ensures passes { IfOk result (λ _.
            (fails self.old.cutoffs.repetition self.old.cutoffs.proportion self.old.state sample ≡ false)
            × (self.new.cutoffs ≡ self.old.cutoffs) × (self.new.state ≡ noted self.old.state sample)) }
        ensures stops { IfErr result (λ e.
            (fails self.old.cutoffs.repetition self.old.cutoffs.proportion self.old.state sample ≡ true)
            × (e ≡ failure place (repetition_fails self.old.cutoffs.repetition self.old.state sample)
            (proportion_fails self.old.cutoffs.proportion self.old.state sample))) }
    {
        let next = self.counted(sample);
        let repetition = self.cutoffs.repetition <= next.run;
        let proportion = self.cutoffs.proportion <= next.count;
        if repetition || proportion {
            return Err(Failure {
                place,
                repetition,
                proportion,
            });
        }
        self.state = closed(next);
        Ok(())
    }

    // How often the sample has then come in a row.
    #[tactic(auto, unfolding(crate::specs::Samples::run_after))]
    fn run_after(self, sample: u32) -> u32
        ensures { result ≡ run_after self.state sample }
    {
        if sample == self.state.last {
            self.state.run + 1
        } else {
            1
        }
    }

    // The window's first sample.
    #[tactic(auto, unfolding(crate::specs::Samples::first_after))]
    fn first_after(self, sample: u32) -> u32
        ensures { result ≡ first_after self.state sample }
    {
        if self.state.seen == 0 {
            sample
        } else {
            self.state.first
        }
    }

    // How often the window's first sample has then come.
    #[tactic(auto, unfolding(crate::specs::Samples::count_after))]
    fn count_after(self, sample: u32) -> u32
        ensures { result ≡ count_after self.state sample }
    {
        if self.state.seen == 0 {
            1
        } else if sample == self.state.first {
            self.state.count + 1
        } else {
            self.state.count
        }
    }

    // The state with the sample, before a full window is closed.
    fn counted(self, sample: u32) -> HealthState
        ensures { result ≡ record {
          last = sample;
          run = run_after self.state sample;
          first = first_after self.state sample;
          count = count_after self.state sample;
          seen = self.state.seen + 1;
        } }
    {
        HealthState {
            last: sample,
            run: self.run_after(sample),
            first: self.first_after(sample),
            count: self.count_after(sample),
            seen: self.state.seen + 1,
        }
    }
}

// A full window is closed: its fields are 0 again.
fn closed(state: HealthState) -> HealthState
    ensures { result ≡ cond (eqb state.seen 512) (record state { first = 0; count = 0; seen = 0 }) state }
{
    if state.seen == WINDOW {
        HealthState {
            first: 0,
            count: 0,
            seen: 0,
            ..state
        }
    } else {
        state
    }
}
