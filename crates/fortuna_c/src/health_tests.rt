// The health tests of a noise source, on a test state that the caller lends.
ghost use Rattle.std.specs.Prelude.{◌≡◌};
ghost use Rattle.health.specs.Calls.{fresh, tested};
ghost use Rattle.fortuna_c.specs.HealthAnswers.{Tells, LeavesTested};

use health::{Failure, HealthState, Refusal};
use laws::number_of;

// The refusal's number, or 0; whether the sample at the place fails each test. Place 0 and neither test where no sample failed.
// Kept: (a) a number, and fields that hold where a sample failed: C has no Result and no Option, and include/fortuna.h has this struct.
#[repr(C)]
#[derive(Clone, Copy)]
pub struct FortunaHealthAnswer {
    pub number: u32,
    pub repetition: bool,
    pub proportion: bool,
    pub place: usize,
}

impl From<Result<Option<Failure>, Refusal>> for FortunaHealthAnswer {
    ghost from_gives = { Tells };

    #[tactic(auto, unfolding(crate::specs::HealthAnswers::place_of, crate::specs::HealthAnswers::repetition_of, crate::specs::HealthAnswers::proportion_of))]
    fn from(answer: Result<Option<Failure>, Refusal>) -> FortunaHealthAnswer {
        let number = number_of(answer);
        match answer {
            Ok(Some(failure)) => FortunaHealthAnswer {
                number,
                repetition: failure.repetition,
                proportion: failure.proportion,
                place: failure.place,
            },
            Ok(None) | Err(_) => FortunaHealthAnswer {
                number,
                repetition: false,
                proportion: false,
                place: 0,
            },
        }
    }
}

#[unsafe(no_mangle)]
pub extern "C" fn fortuna_health_new() -> HealthState
    ensures { result ≡ fresh }
{
    HealthState::new()
}

#[unsafe(no_mangle)]
pub extern "C" fn fortuna_health_test(
    state: &mut HealthState,
    samples: &[u32],
    repetition: u32,
    proportion: u32,
) -> FortunaHealthAnswer
    ensures { LeavesTested (tested repetition proportion state.old samples.now) result state.new }
{
    let o = state.test(samples, repetition, proportion);
    *state = o.next;
    o.answer.into()
}
