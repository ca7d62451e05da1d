// The calls of the keyed scheduler with a list of quotas: 37, and for an event 38 and 39, by the list. Requests and seed calls empty no pool,
// so they leave every record. An event's source is charged where the event is accepted, and nothing is spent where its step emptied a pool,
// its own bytes included.
ghost use Rattle.pools.specs.Promises.{number};
ghost use Rattle.keyed.specs.Calls.{event, request, update, write};
ghost use Rattle.quotas.specs.Records.{quotas_number};
ghost use Rattle.metered.specs.KeyedMetering.{KeyedMeters, KeyedMetersBytes, MayGive, BehindGate};

use crate::gates::{charge, gate, refused};
use keyed::Keyed;
use pools::{Outcome, Refusal};
use quotas::Quota;

// An event.
pub fn keyed_add_event(state: Keyed, list: &mut [Quota], source: u32, data: &[u8]) -> Outcome<Keyed>
    ensures { KeyedMeters state list.old (event source «data».now) result list.new }
{
    let own = state.add_event(source, data);
    let outcome = match charge(list, source, data.len(), own.answer) {
        Ok(()) => own,
        Err(refusal) => refused(state, refusal),
    };
    quotas::clear_after(list, outcome.emptied);
    outcome
}

// A call that is no event, on the lent bytes: it is made where the gate of its list is open.
fn behind_gate<F: FnOnce(Keyed, &mut [u8]) -> Outcome<Keyed> + Drop>(
    state: Keyed,
    list: &[Quota],
    input: Result<(), Refusal>,
    lent: &mut [u8],
    call: F,
) -> Outcome<Keyed>
    requires { F.IsAlwaysCallable call }
    ensures { BehindGate (quotas_number list.now) (number input) state lent.old (MayGive F.FnOnce call state lent.old) result lent.new }
{
    match gate(list, input) {
        Ok(()) => call(state, lent),
        Err(refusal) => refused(state, refusal),
    }
}

// A request.
pub fn keyed_random_data(state: Keyed, list: &[Quota], out: &mut [u8]) -> Outcome<Keyed>
    ensures { KeyedMetersBytes state list.now (request out.old) result out.new }
{
    let input = pools::request_input(out.len());
    behind_gate(state, list, input, out, Keyed::random_data)
}

// A seed update.
pub fn keyed_update_seed(state: Keyed, list: &[Quota], seed: &mut [u8]) -> Outcome<Keyed>
    ensures { KeyedMetersBytes state list.now (update seed.old) result seed.new }
{
    let input = pools::update_input(seed);
    behind_gate(state, list, input, seed, Keyed::update_seed)
}

// A seed write.
pub fn keyed_write_seed(state: Keyed, list: &[Quota], seed: &mut [u8]) -> Outcome<Keyed>
    ensures { KeyedMetersBytes state list.now (write seed.old) result seed.new }
{
    let input = pools::seed_input(seed);
    behind_gate(state, list, input, seed, Keyed::write_seed)
}
