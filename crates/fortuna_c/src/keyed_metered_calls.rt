// The calls of the keyed scheduler with a list of quotas, on a state and a list that the caller lends. A request and a seed call only look
// at the list.
ghost use Rattle.keyed.specs.Calls.{event, request, update, write};
ghost use Rattle.fortuna_c.specs.KeyedOutcomes.{KeyedMeteredLeaves, KeyedMeteredLeavesBytes};

use crate::station::{FortunaAnswer, stored};
use keyed::Keyed;
use quotas::Quota;

#[unsafe(no_mangle)]
pub extern "C" fn fortuna_keyed_metered_event(
    state: &mut Keyed,
    list: &mut [Quota],
    source: u32,
    data: &[u8],
) -> FortunaAnswer
    ensures { KeyedMeteredLeaves state.old list.old (event source «data».now) result
        state.new list.new }
{
    stored(&metered::keyed_add_event(*state, list, source, data), state)
}

#[unsafe(no_mangle)]
pub extern "C" fn fortuna_keyed_metered_request(
    state: &mut Keyed,
    list: &[Quota],
    out: &mut [u8],
) -> FortunaAnswer
    ensures { KeyedMeteredLeavesBytes state.old list.now (request out.old) result
        state.new out.new }
{
    stored(&metered::keyed_random_data(*state, list, out), state)
}

#[unsafe(no_mangle)]
pub extern "C" fn fortuna_keyed_metered_update(
    state: &mut Keyed,
    list: &[Quota],
    seed: &mut [u8],
) -> FortunaAnswer
    ensures { KeyedMeteredLeavesBytes state.old list.now (update seed.old) result
        state.new seed.new }
{
    stored(&metered::keyed_update_seed(*state, list, seed), state)
}

#[unsafe(no_mangle)]
pub extern "C" fn fortuna_keyed_metered_write(
    state: &mut Keyed,
    list: &[Quota],
    seed: &mut [u8],
) -> FortunaAnswer
    ensures { KeyedMeteredLeavesBytes state.old list.now (write seed.old) result
        state.new seed.new }
{
    stored(&metered::keyed_write_seed(*state, list, seed), state)
}
