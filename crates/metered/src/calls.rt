// Requests, seed calls, draws and shuffles with a list of quotas: 37 by the list, and nothing spent after a pool reseed.
// Kept: (a) fixed memory: by one function that takes the call as a closure a request takes 10,696 bytes of stack; as it stands 7,112.
// Kept: (a) state and list side by side, here, in events and in keyed_calls: docs/decisions/forms.md, 'Calls with a list are functions'.
ghost use Rattle.pools.specs.Calls.{request, update, write, draw, shuffle};
ghost use Rattle.metered.specs.Metering.{MetersBytes, MetersValue};

use crate::gates::{gate, refused};
use draws::Draw;
use pools::{Fortuna, Outcome};
use quotas::Quota;

// A request.
pub fn random_data(
    state: Fortuna,
    list: &mut [Quota],
    clock: u32,
    out: &mut [u8],
) -> Outcome<Fortuna>
    ensures { MetersBytes state list.old (request clock out.old) result list.new out.new }
{
    let outcome = match gate(list, pools::request_input(out.len())) {
        Ok(()) => state.random_data(clock, out),
        Err(refusal) => refused(state, refusal),
    };
    quotas::clear_after(list, outcome.emptied);
    outcome
}

// A seed update.
pub fn update_seed(
    state: Fortuna,
    list: &mut [Quota],
    clock: u32,
    seed: &mut [u8],
) -> Outcome<Fortuna>
    ensures { MetersBytes state list.old (update clock seed.old) result list.new seed.new }
{
    let outcome = match gate(list, pools::update_input(seed)) {
        Ok(()) => state.update_seed(clock, seed),
        Err(refusal) => refused(state, refusal),
    };
    quotas::clear_after(list, outcome.emptied);
    outcome
}

// A seed write.
pub fn write_seed(
    state: Fortuna,
    list: &mut [Quota],
    clock: u32,
    seed: &mut [u8],
) -> Outcome<Fortuna>
    ensures { MetersBytes state list.old (write clock seed.old) result list.new seed.new }
{
    let outcome = match gate(list, pools::seed_input(seed)) {
        Ok(()) => state.write_seed(clock, seed),
        Err(refusal) => refused(state, refusal),
    };
    quotas::clear_after(list, outcome.emptied);
    outcome
}

// A shuffle.
pub fn shuffle(
    state: Fortuna,
    list: &mut [Quota],
    clock: u32,
    numbers: &mut [u16],
) -> Outcome<Fortuna>
    ensures { MetersBytes state list.old (shuffle clock numbers.old) result list.new numbers.new }
{
    let outcome = match gate(list, pools::list_input(numbers)) {
        Ok(()) => draws::shuffle(state, clock, numbers),
        Err(refusal) => refused(state, refusal),
    };
    quotas::clear_after(list, outcome.emptied);
    outcome
}

// A draw.
pub fn random_below(state: Fortuna, list: &mut [Quota], clock: u32, n: u64, d: u32) -> Draw
    ensures { MetersValue state list.old (draw clock n d) result list.new }
{
    match gate(list, pools::draw_input(n, d)) {
        // Kept: (b) cleared here, not behind the match as above: a draw refused by 37 takes a third of the instructions (docs/LOOK-BACK.md).
        Ok(()) => {
            let draw = draws::random_below(state, clock, n, d);
            quotas::clear_after(list, draw.emptied);
            draw
        }
        // Kept: (d) by hand, here and in draws alone: a Draw is no Outcome; a function for it would have these three fields as its clause.
        Err(refusal) => Draw {
            answer: Err(refusal),
            emptied: 0,
            next: state,
        },
    }
}
