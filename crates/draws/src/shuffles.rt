// Shuffles of a list by draws.
ghost use Rattle.std.specs.Prelude.{◌≡◌, ◌-◌, ◌*◌, ◌≤◌, ◌<◌, length};
ghost use Rattle.slots.specs.Shuffle.{exchange};
ghost use Rattle.pools.specs.Refusals.{max_tries};
ghost use Rattle.pools.specs.Draws.{shuffle_from, shuffled, try_at};
ghost use Rattle.pools.specs.Calls.{shuffle, step};
ghost use Rattle.pools.specs.Promises.{GivesBytes};
ghost use Rattle.pools.specs.Tries.{Passing};
ghost use Rattle.draws.specs.Drawing.{DrawsList};

use crate::draw::make_tries;
use pools::{Fortuna, MAX_TRIES, Outcome};

// The entries at i and j change places.
// Kept: (a) by hand, and no `swap`: that one asks whether the two places are one, and a place drawn is secret (tests/compiled/key_bits).
#[tactic(auto, unfolding(slots::specs::Shuffle::exchange))]
fn exchange(order: &mut [u16], i: usize, j: usize)
    requires { (i < length order.old) × (j < length order.old) }
    ensures { order.new ≡ exchange i j order.old }
{
    let (a, b) = (order[i], order[j]);
    order[i] = b;
    order[j] = a;
}

// From the last place down to 1, the entry at p changes places with the one at the place drawn below p + 1. A draw without a value ends it.
fn shuffle_from(order: &mut [u16], mut state: Fortuna, clock: u32) -> Outcome<Fortuna>
    requires { (length order.old ≤ 256) × Passing state clock (max_tries * (length order.old - 1)) }
    ensures { DrawsList (shuffle_from (try_at clock) (length order.old - 1) order.old state) result order.new }
{
    let mut emptied = 0;
    for p in (1..order.len()).rev() {
        let draw = make_tries(state, clock, p as u64 + 1, MAX_TRIES);
        emptied += draw.emptied;
        state = draw.next;
        match draw.answer {
            Ok(value) => exchange(order, p, value as usize),
            Err(refusal) => {
                return Outcome {
                    answer: Err(refusal),
                    emptied,
                    next: state,
                };
            },
        }
    }
    Outcome {
        answer: Ok(()),
        emptied,
        next: state,
    }
}

// A shuffle in a copy: the list is written only where every draw found a value.
fn shuffle_list(state: Fortuna, clock: u32, list: &mut [u16]) -> Outcome<Fortuna>
    requires { (length list.old ≤ 256) × Passing state clock (max_tries * (length list.old - 1)) }
    ensures { DrawsList (shuffled (try_at clock) list.old state) result list.new }
{
    let mut copy = [0u16; 256];
    let order = &mut copy[..list.len()];
    order.copy_from_slice(list);
    let outcome = shuffle_from(order, state, clock);
    if outcome.answer.is_ok() {
        list.copy_from_slice(order);
    }
    outcome
}

// Shuffles the list, at a reading of the clock. Where it is refused, the list is as it was.
pub fn shuffle(state: Fortuna, clock: u32, list: &mut [u16]) -> Outcome<Fortuna>
    ensures { GivesBytes (step state (shuffle clock list.old)) result list.new }
{
    let answer = state.shuffle_answer(clock, list);
    // A list of one number or none needs no draw, so it is accepted without a key too.
    if answer.is_ok() && list.len() > 1 {
        return shuffle_list(state, clock, list);
    }
    Outcome {
        answer,
        emptied: 0,
        next: state,
    }
}
