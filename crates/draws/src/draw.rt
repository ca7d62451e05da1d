// Draws below n.
ghost use Rattle.std.specs.Prelude.{◌*◌, ◌≤◌};
ghost use Rattle.pools.specs.Draws.{tries, try_at};
ghost use Rattle.pools.specs.Calls.{draw, step};
ghost use Rattle.pools.specs.Promises.{GivesValue};
ghost use Rattle.pools.specs.Tries.{Passing};
ghost use Rattle.draws.specs.Drawing.{DrawsValue};

use pools::{Fortuna, Refusal};
use slots::{bits_for, low_bits};

// The answer, with the value drawn, the pools emptied, and the state that follows.
// Kept: (d) no pools::Outcome, whose answer carries nothing: a type parameter for this one use would stand in all the others.
#[derive(Clone, Copy)]
pub struct Draw {
    pub answer: Result<u64, Refusal>,
    pub emptied: u32,
    pub next: Fortuna,
}

// Up to d tries: the first value below n is the answer and ends them.
// Kept: (d) state, clock and `Passing` in three contracts, here and in shuffles: `Passing` counts the tries to come, for which a struct would need a field.
pub(crate) fn make_tries(mut state: Fortuna, clock: u32, n: u64, d: u32) -> Draw
    requires { (d ≤ 64) × Passing state clock d }
    ensures { DrawsValue (tries (try_at clock) n d state) result × (result.emptied ≤ 32 * d) }
{
    let k = bits_for(n);
    let mut emptied = 0;
    for _t in 0..d {
        let mut bytes = [0u8; 4];
        let served = state.random_data(clock, &mut bytes);
        emptied += served.emptied;
        state = served.next;
        let value = low_bits(bytes, k);
        if value < n {
            return Draw {
                answer: Ok(value),
                emptied,
                next: state,
            };
        }
    }
    Draw {
        answer: Err(Refusal::NoneDrawn),
        emptied,
        next: state,
    }
}

// A value below n, with up to d tries at a reading of the clock.
// Kept: (d) a refused draw written out, here and in metered: `refused` of metered is above draws, and gives an Outcome.
pub fn random_below(state: Fortuna, clock: u32, n: u64, d: u32) -> Draw
    ensures { GivesValue (step state (draw clock n d)) result.answer result.emptied result.next }
{
    match state.draw_answer(clock, n, d) {
        Ok(()) => make_tries(state, clock, n, d),
        Err(refusal) => Draw {
            answer: Err(refusal),
            emptied: 0,
            next: state,
        },
    }
}
