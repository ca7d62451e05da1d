// The station's calls, on a state that the caller lends. A state is 3.4 KB, and a copy of it takes some 420 instructions (docs/BENCHMARKS.md).
ghost use Rattle.std.specs.Prelude.{◌≡◌, ◌<◌};
ghost use Rattle.pools.specs.Promises.{number};
ghost use Rattle.pools.specs.State.{fresh};
ghost use Rattle.pools.specs.Effects.{with_pool};
ghost use Rattle.pools.specs.Calls.{event, request, update, write, step};
ghost use Rattle.fortuna_c.specs.Outcomes.{Leaves, LeavesBytes};

use hash::Hasher;
use laws::number_of;
use pools::{Fortuna, Outcome};

// The refusal's number, or 0, and how many pools were emptied.
// Kept: (a) a number in place of a Result: C has none, and include/fortuna.h has this struct.
#[repr(C)]
#[derive(Clone, Copy)]
pub struct FortunaAnswer {
    pub number: u32,
    pub emptied: u32,
}

pub(crate) fn put_pool(state: &mut Fortuna, place: usize, pool: Hasher)
    requires { place < 32 }
    ensures { state.new ≡ with_pool state.old place pool }
{
    state.pools[place] = pool;
}

// Stores the state that a call leaves, of either scheduler, and says what C is told of the call.
pub(crate) fn stored<S: Copy>(o: &Outcome<S>, state: &mut S) -> FortunaAnswer
    ensures { (result.number ≡ number o.now.answer) × (result.emptied ≡ o.now.emptied) × (state.new ≡ o.now.next) }
{
    *state = o.next;
    FortunaAnswer {
        number: number_of(o.answer),
        emptied: o.emptied,
    }
}

#[unsafe(no_mangle)]
pub extern "C" fn fortuna_new() -> Fortuna
    ensures { result ≡ fresh }
{
    Fortuna::new()
}

#[unsafe(no_mangle)]
pub extern "C" fn fortuna_event(state: &mut Fortuna, source: u32, pool: u32, data: &[u8]) -> u32
    ensures { Leaves (step state.old (event source pool «data».now)) result state.new }
{
    let gain = state.gain_of(source, pool, data);
    put_pool(state, gain.place, gain.pool);
    number_of(gain.answer)
}

#[unsafe(no_mangle)]
pub extern "C" fn fortuna_request(state: &mut Fortuna, clock: u32, out: &mut [u8]) -> FortunaAnswer
    ensures { LeavesBytes (step state.old (request clock out.old)) result state.new out.new }
{
    stored(&state.random_data(clock, out), state)
}

#[unsafe(no_mangle)]
pub extern "C" fn fortuna_update(state: &mut Fortuna, clock: u32, seed: &mut [u8]) -> FortunaAnswer
    ensures { LeavesBytes (step state.old (update clock seed.old)) result state.new seed.new }
{
    stored(&state.update_seed(clock, seed), state)
}

#[unsafe(no_mangle)]
pub extern "C" fn fortuna_write(state: &mut Fortuna, clock: u32, seed: &mut [u8]) -> FortunaAnswer
    ensures { LeavesBytes (step state.old (write clock seed.old)) result state.new seed.new }
{
    stored(&state.write_seed(clock, seed), state)
}
