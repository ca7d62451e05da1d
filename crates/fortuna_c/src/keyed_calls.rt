// The calls of the keyed scheduler, on a state that the caller lends.
ghost use Rattle.std.specs.Prelude.{◌≡◌};
ghost use Rattle.keyed.specs.State.{fresh};
ghost use Rattle.keyed.specs.Scheduler.{input_pool, emptied_at};
ghost use Rattle.keyed.specs.Calls.{event, request, update, write, step};
ghost use Rattle.fortuna_c.specs.KeyedOutcomes.{KeyedLeaves, KeyedLeavesBytes};

use crate::station::{FortunaAnswer, stored};
use keyed::Keyed;

#[unsafe(no_mangle)]
pub extern "C" fn fortuna_keyed_new(scheduler_key: &[u8; 32]) -> Keyed
    ensures { result ≡ fresh scheduler_key.now }
{
    Keyed::new(*scheduler_key)
}

#[unsafe(no_mangle)]
pub extern "C" fn fortuna_keyed_event(state: &mut Keyed, source: u32, data: &[u8]) -> FortunaAnswer
    ensures { KeyedLeaves (step state.old (event source «data».now)) result state.new }
{
    stored(&state.add_event(source, data), state)
}

#[unsafe(no_mangle)]
pub extern "C" fn fortuna_keyed_request(state: &mut Keyed, out: &mut [u8]) -> FortunaAnswer
    ensures { KeyedLeavesBytes (step state.old (request out.old)) result state.new out.new }
{
    stored(&state.random_data(out), state)
}

#[unsafe(no_mangle)]
pub extern "C" fn fortuna_keyed_update(state: &mut Keyed, seed: &mut [u8]) -> FortunaAnswer
    ensures { KeyedLeavesBytes (step state.old (update seed.old)) result state.new seed.new }
{
    stored(&state.update_seed(seed), state)
}

#[unsafe(no_mangle)]
pub extern "C" fn fortuna_keyed_write(state: &mut Keyed, seed: &mut [u8]) -> FortunaAnswer
    ensures { KeyedLeavesBytes (step state.old (write seed.old)) result state.new seed.new }
{
    stored(&state.write_seed(seed), state)
}

// The pool that the event at a step goes to.
#[unsafe(no_mangle)]
pub extern "C" fn fortuna_keyed_input(scheduler_key: &[u8; 32], step: u64) -> u32
    ensures { result ≡ input_pool scheduler_key.now step }
{
    keyed::input_pool(*scheduler_key, step)
}

// The pool that a step empties, or 32 where it empties none.
// Kept: (a) 32 for none: C has no Option, and include/fortuna.h says so.
#[unsafe(no_mangle)]
pub extern "C" fn fortuna_keyed_output(step: u64) -> u32
    ensures { result ≡ emptied_at step }
{
    keyed::emptied_at(step)
}
