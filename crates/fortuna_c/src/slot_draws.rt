// Draws below n and shuffles of a list, on a state that the caller lends.
ghost use Rattle.std.specs.Prelude.{◌≡◌};
ghost use Rattle.pools.specs.Promises.{number, value_of};
ghost use Rattle.pools.specs.Calls.{draw, shuffle, step};
ghost use Rattle.fortuna_c.specs.Outcomes.{LeavesBytes, LeavesValue};

use crate::station::{FortunaAnswer, stored};
use draws::Draw;
use laws::number_of;
use pools::Fortuna;

// The refusal's number, or 0, how many pools were emptied, and the value, 0 where there is none.
// Kept: (a) a number, and a value that holds where it is 0: C has no Result, and include/fortuna.h has this struct.
#[repr(C)]
#[derive(Clone, Copy)]
pub struct FortunaDraw {
    pub number: u32,
    pub emptied: u32,
    pub value: u64,
}

// Stores the state that a draw leaves, and says what C is told of it.
pub(crate) fn draw_stored(d: &Draw, state: &mut Fortuna) -> FortunaDraw
    ensures { (result.number ≡ number d.now.answer) × (result.emptied ≡ d.now.emptied) × (result.value ≡ value_of d.now.answer)
        × (state.new ≡ d.now.next) }
{
    *state = d.next;
    FortunaDraw {
        number: number_of(d.answer),
        emptied: d.emptied,
        value: d.answer.unwrap_or(0),
    }
}

#[unsafe(no_mangle)]
pub extern "C" fn fortuna_random_below(
    state: &mut Fortuna,
    clock: u32,
    n: u64,
    tries: u32,
) -> FortunaDraw
    ensures { LeavesValue (step state.old (draw clock n tries)) result state.new }
{
    draw_stored(&draws::random_below(*state, clock, n, tries), state)
}

#[unsafe(no_mangle)]
pub extern "C" fn fortuna_shuffle(
    state: &mut Fortuna,
    clock: u32,
    list: &mut [u16],
) -> FortunaAnswer
    ensures { LeavesBytes (step state.old (shuffle clock list.old)) result state.new list.new }
{
    stored(&draws::shuffle(*state, clock, list), state)
}
