// The calls with a list of quotas, on a state and a list that the caller lends.
ghost use Rattle.pools.specs.Calls.{event, request, update, write, draw, shuffle};
ghost use Rattle.fortuna_c.specs.Outcomes.{MeteredLeaves, MeteredLeavesBytes, MeteredLeavesValue};

use crate::slot_draws::{FortunaDraw, draw_stored};
use crate::station::{FortunaAnswer, put_pool, stored};
use laws::number_of;
use pools::Fortuna;
use quotas::Quota;

#[unsafe(no_mangle)]
pub extern "C" fn fortuna_metered_event(
    state: &mut Fortuna,
    list: &mut [Quota],
    source: u32,
    pool: u32,
    data: &[u8],
) -> u32
    ensures { MeteredLeaves state.old list.old (event source pool «data».now) result
        state.new list.new }
{
    // Kept: (d) stored as in fortuna_event: one function for these two lines would be handed the state, the gain and that its place is below 32.
    let gain = metered::gain_of(state, list, source, pool, data);
    put_pool(state, gain.place, gain.pool);
    number_of(gain.answer)
}

#[unsafe(no_mangle)]
pub extern "C" fn fortuna_metered_request(
    state: &mut Fortuna,
    list: &mut [Quota],
    clock: u32,
    out: &mut [u8],
) -> FortunaAnswer
    ensures { MeteredLeavesBytes state.old list.old (request clock out.old) result
        state.new list.new out.new }
{
    stored(&metered::random_data(*state, list, clock, out), state)
}

#[unsafe(no_mangle)]
pub extern "C" fn fortuna_metered_update(
    state: &mut Fortuna,
    list: &mut [Quota],
    clock: u32,
    seed: &mut [u8],
) -> FortunaAnswer
    ensures { MeteredLeavesBytes state.old list.old (update clock seed.old) result
        state.new list.new seed.new }
{
    stored(&metered::update_seed(*state, list, clock, seed), state)
}

#[unsafe(no_mangle)]
pub extern "C" fn fortuna_metered_write(
    state: &mut Fortuna,
    list: &mut [Quota],
    clock: u32,
    seed: &mut [u8],
) -> FortunaAnswer
    ensures { MeteredLeavesBytes state.old list.old (write clock seed.old) result
        state.new list.new seed.new }
{
    stored(&metered::write_seed(*state, list, clock, seed), state)
}

#[unsafe(no_mangle)]
pub extern "C" fn fortuna_metered_random_below(
    state: &mut Fortuna,
    list: &mut [Quota],
    clock: u32,
    n: u64,
    tries: u32,
) -> FortunaDraw
    ensures { MeteredLeavesValue state.old list.old (draw clock n tries) result state.new list.new }
{
    draw_stored(&metered::random_below(*state, list, clock, n, tries), state)
}

#[unsafe(no_mangle)]
pub extern "C" fn fortuna_metered_shuffle(
    state: &mut Fortuna,
    list: &mut [Quota],
    clock: u32,
    numbers: &mut [u16],
) -> FortunaAnswer
    ensures { MeteredLeavesBytes state.old list.old (shuffle clock numbers.old) result
        state.new list.new numbers.new }
{
    stored(&metered::shuffle(*state, list, clock, numbers), state)
}
