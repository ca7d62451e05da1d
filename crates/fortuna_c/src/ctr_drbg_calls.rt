// CTR_DRBG of NIST SP 800-90A, on a state that the caller lends.
ghost use Rattle.std.specs.Prelude.{◌≡◌};
ghost use Rattle.ctr_drbg.specs.Operations.{fresh, number};
ghost use Rattle.fortuna_c.specs.CtrDrbgAnswers.{LeavesInstantiated, LeavesReseeded, LeavesGenerated};

use ctr_drbg::{CtrDrbg, Outcome};
use laws::number_of;

// Stores the state that a call leaves, and gives the answer's number.
fn stored(o: Outcome, state: &mut CtrDrbg) -> u32
    ensures { (result ≡ number o.answer) × (state.new ≡ o.next) }
{
    *state = o.next;
    number_of(o.answer)
}

#[unsafe(no_mangle)]
pub extern "C" fn fortuna_ctr_drbg_new() -> CtrDrbg
    ensures { result ≡ fresh }
{
    CtrDrbg::new()
}

#[unsafe(no_mangle)]
pub extern "C" fn fortuna_ctr_drbg_instantiate(
    state: &mut CtrDrbg,
    entropy: &[u8],
    personalization: &[u8],
) -> u32
    ensures { LeavesInstantiated state.old entropy.now personalization.now result state.new }
{
    stored(state.instantiate(entropy, personalization), state)
}

#[unsafe(no_mangle)]
pub extern "C" fn fortuna_ctr_drbg_reseed(
    state: &mut CtrDrbg,
    entropy: &[u8],
    additional: &[u8],
) -> u32
    ensures { LeavesReseeded state.old entropy.now additional.now result state.new }
{
    stored(state.reseed(entropy, additional), state)
}

#[unsafe(no_mangle)]
pub extern "C" fn fortuna_ctr_drbg_generate(
    state: &mut CtrDrbg,
    out: &mut [u8],
    additional: &[u8],
) -> u32
    ensures { LeavesGenerated state.old out.old additional.now result state.new out.new }
{
    stored(state.generate(out, additional), state)
}
