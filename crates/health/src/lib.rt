// Health tests of a noise source: the repetition count test and the adaptive proportion test of NIST SP 800-90B (4.4.1, 4.4.2), over a lent run
// of samples (02 (vi)). They stand before samples become events, and have nothing to do with a station's state.
#![tactic(auto)]

mod refusals;
mod sample;

ghost use Rattle.std.specs.Prelude.{◌≡◌};
ghost use Rattle.health.specs.Calls.{fresh, tested};

use crate::refusals::Cutoffs;
use crate::sample::Tests;
pub use refusals::Refusal;

// The samples of a full window.
const WINDOW: u32 = 512;

// Between two samples: the last one and how often it has come in a row; the first of the window, how often it has come there, and how many
// samples the window has.
// Kept: (a) 0 for no sample seen, and no Option: C has this struct (fortuna_health), and its fresh state is all 0.
#[repr(C)]
#[derive(Clone, Copy)]
pub struct HealthState {
    pub last: u32,
    pub run: u32,
    pub first: u32,
    pub count: u32,
    pub seen: u32,
}

// The first sample that failed: its place, and which tests it failed.
#[derive(Clone, Copy)]
pub struct Failure {
    pub place: usize,
    pub repetition: bool,
    pub proportion: bool,
}

// No failure where every sample passed. A failure is no refusal: its number is 0.
// Kept: (d) no laws::Outcome, whose answer carries nothing: a type parameter for this one use would stand in all the others.
#[derive(Clone, Copy)]
pub struct Outcome {
    pub answer: Result<Option<Failure>, Refusal>,
    pub next: HealthState,
}

impl HealthState {
    // The fresh state: all 0.
    #[tactic(auto, unfolding(crate::specs::Calls::fresh))]
    pub fn new() -> HealthState
        ensures { result ≡ fresh }
    {
        HealthState {
            last: 0,
            run: 0,
            first: 0,
            count: 0,
            seen: 0,
        }
    }

    // The tests over a run of samples, each with its cutoff. A failing sample ends them, and the state is fresh again.
    // Kept: (a) two cutoffs side by side: the C function (fortuna_health_test) and README have them so.
    #[tactic(auto, unfolding(crate::specs::Calls::tested, crate::specs::Calls::outcome_of, crate::specs::Calls::malformed))]
    pub fn test(self, samples: &[u32], repetition: u32, proportion: u32) -> Outcome
        ensures { result ≡ tested repetition proportion self samples.now }
    {
        let cutoffs = Cutoffs {
            repetition,
            proportion,
        };
        if let Err(refusal) = cutoffs.check(self) {
            return Outcome {
                answer: Err(refusal),
                next: self,
            };
        }
        let tests = Tests {
            cutoffs,
            state: self,
        };
        match tests.walk(samples) {
            Ok(next) => Outcome {
                answer: Ok(None),
                next,
            },
            Err(failure) => Outcome {
                answer: Ok(Some(failure)),
                next: HealthState::new(),
            },
        }
    }
}
