// Events with a list of quotas: 37, 38 and 39 by the list, and the source's record is charged where the event is accepted.
ghost use Rattle.pools.specs.Calls.{event};
ghost use Rattle.metered.specs.Metering.{Meters, MetersGain};

use crate::gates::charge;
use pools::{Fortuna, Gain, Outcome};
use quotas::Quota;

// What an event comes to: its answer, and the one pool to store.
pub fn gain_of(state: &Fortuna, list: &mut [Quota], source: u32, pool: u32, data: &[u8]) -> Gain
    ensures { MetersGain state.now list.old source pool «data».now result list.new }
{
    let gain = state.gain_of(source, pool, data);
    let answer = charge(list, source, data.len(), gain.answer);
    if answer.is_ok() {
        return gain;
    }
    // Where the list refuses it, the pool is the one that it found.
    Gain {
        answer,
        pool: state.pools[gain.place],
        ..gain
    }
}

// An event.
pub fn add_event(
    mut state: Fortuna,
    list: &mut [Quota],
    source: u32,
    pool: u32,
    data: &[u8],
) -> Outcome<Fortuna>
    ensures { Meters state list.old (event source pool «data».now) result list.new }
{
    let gain = gain_of(&state, list, source, pool, data);
    state.pools[gain.place] = gain.pool;
    Outcome {
        answer: gain.answer,
        emptied: 0,
        next: state,
    }
}
