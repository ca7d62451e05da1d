// What a list says of a call of either scheduler: 37 for a call that is no event; 37, 38 or 39 for an event, which is charged where it is
// accepted. A call's own input numbers come before these, its state numbers after.
ghost use Rattle.std.specs.Prelude.{◌≡◌, Err};
ghost use Rattle.pools.specs.Promises.{number};
ghost use Rattle.quotas.specs.Records.{quotas_number};
ghost use Rattle.quotas.specs.Charges.{charge_number, charge_list};
ghost use Rattle.metered.specs.Metering.{gate_number, known_of, cost_of};

use laws::{Numbered, number_of};
use pools::{HEADER, MAX_DATA, Outcome, Refusal};
use quotas::Quota;

// What refuses a call because its list is malformed: the answer by its input alone, or 37.
pub(crate) fn gate(list: &[Quota], input: Result<(), Refusal>) -> Result<(), Refusal>
    ensures { number result ≡ gate_number (quotas_number list.now) (number input) }
{
    let checked = quotas::check(list);
    if checked.is_ok() {
        checked
    } else {
        input.and(checked)
    }
}

// A refused call leaves the state as it was.
pub(crate) fn refused<S>(state: S, refusal: Refusal) -> Outcome<S>
    ensures { (result.answer ≡ Err refusal) × (result.emptied ≡ 0) × (result.next ≡ state) }
{
    Outcome {
        answer: Err(refusal),
        emptied: 0,
        next: state,
    }
}

// The least number of a refusal by the state: the input's numbers of an event are below it.
// Kept: (d) by number, as the rule is: a pattern in its place would list the five refusals below 21.
const FIRST_BY_STATE: u32 = 21;

// An event's answer without 38 and 39: its own where its input refuses it, else what refuses the list, else its own.
fn known_answer(own: Result<(), Refusal>, checked: Result<(), Refusal>) -> Result<(), Refusal>
    ensures { number result ≡ known_of (number own) (number checked) }
{
    match own {
        Err(refusal) if refusal.number() < FIRST_BY_STATE => own,
        _ => checked.and(own),
    }
}

// What n bytes of data cost. More than an event may have cost nothing: it is refused.
#[tactic(auto, unfolding(crate::specs::Metering::cost_of, pools::specs::Events::max_data, pools::specs::Events::gain, pools::specs::Events::header_length))]
fn cost_of(n: usize) -> u32
    ensures { result ≡ cost_of n }
{
    if n > MAX_DATA { 0 } else { (HEADER + n) as u32 }
}

// The answer to an event of n bytes of data, which has its own without a list. The list is charged where it is accepted.
pub(crate) fn charge(
    list: &mut [Quota],
    source: u32,
    n: usize,
    own: Result<(), Refusal>,
) -> Result<(), Refusal>
    ensures answer { number result ≡ charge_number list.old source (cost_of n) (known_of (number own) (quotas_number list.old)) }
    ensures list { list.new ≡ charge_list list.old source (cost_of n) (known_of (number own) (quotas_number list.old)) }
{
    let known = known_answer(own, quotas::check(list));
    // Kept: (a) 38 and 39 by number: `quotas::charge` gives them, whose clause, by `charge_number`, holds for any number of an event.
    match quotas::charge(list, source, cost_of(n), number_of(known)) {
        38 => Err(Refusal::SourceNotListed),
        39 => Err(Refusal::OverAllowance),
        _ => known,
    }
}
