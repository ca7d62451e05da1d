// A lent list of quotas (02 (x)): for each source its allowance in bytes and the bytes spent.
#![tactic(auto)]

ghost use Rattle.std.specs.Prelude.{◌≡◌};
ghost use Rattle.pools.specs.Promises.{number};
ghost use Rattle.quotas.specs.Records.{place_from, quotas_number, cleared};
ghost use Rattle.quotas.specs.Charges.{comes_first, judged, unlisted_of, charge_number, charge_list, cleared_after, first_bound, start_at, bound_after};

use pools::Refusal;

// The most records of a list.
const MAX_QUOTAS: usize = 64;

#[repr(C)]
#[derive(Clone, Copy)]
pub struct Quota {
    pub source: u32,
    pub allowance: u32,
    pub spent: u32,
}

// The place of a source's first record at or after `from`. Where it has none there: the number of records, or `from` if that is more.
// Kept: (a) a place past the end for none, and no Option: the clause, by `place_from`, says which place that is.
#[tactic(auto, using(crate::proofs::Places::places), unfolding(crate::specs::Records::place_from))]
pub fn find(list: &[Quota], source: u32, from: usize) -> usize
    ensures { result ≡ place_from list.now source from }
{
    // Kept: (b) by index: with `position` over the part from `from` on an event with 64 rising quotas takes 5 % more instructions.
    for i in from..list.len() {
        if list[i].source == source {
            return i;
        }
    }
    from.max(list.len())
}

// Sets all that is spent to 0.
#[tactic(auto, unfolding(crate::specs::Records::cleared))]
pub fn clear(list: &mut [Quota])
    ensures { list.new ≡ cleared list.old }
{
    for quota in list.iter_mut() {
        quota.spent = 0;
    }
}

// Sets all that is spent to 0 where pools were emptied.
#[tactic(auto, unfolding(crate::specs::Charges::cleared_after))]
pub fn clear_after(list: &mut [Quota], emptied: u32)
    ensures { list.new ≡ cleared_after emptied list.old }
{
    if emptied > 0 {
        clear(list);
    }
}

// Whether a number comes before 38 and 39: an event's input numbers, and 37.
#[tactic(auto, unfolding(crate::specs::Charges::comes_first))]
fn comes_first(number: u32) -> bool
    ensures { result ≡ comes_first number }
{
    matches!(number, 1..=20 | 37)
}

// The record charged with the cost of an event that has a number, or 0, without it; or the number that refuses the event.
// Kept: (a) numbers for refusals, here, in unlisted and in charge: the clause, by `charge_number`, holds for any number of an event.
#[tactic(auto, unfolding(crate::specs::Charges::judged))]
fn judge(quota: Quota, cost: u32, number: u32) -> Result<Quota, u32>
    ensures { result ≡ judged quota cost number }
{
    if comes_first(number) {
        return Err(number);
    }
    if u64::from(quota.allowance) < u64::from(quota.spent) + u64::from(cost) {
        return Err(39);
    }
    if number != 0 {
        return Err(number);
    }
    Ok(Quota {
        spent: quota.spent + cost,
        ..quota
    })
}

// The number of an event whose source is not listed.
#[tactic(auto, unfolding(crate::specs::Charges::unlisted_of))]
fn unlisted(number: u32) -> u32
    ensures { result ≡ unlisted_of number }
{
    if comes_first(number) { number } else { 38 }
}

// Finds the source's record, and charges it where the event is accepted: `number` is the event's, without 38 and 39.
pub fn charge(list: &mut [Quota], source: u32, cost: u32, number: u32) -> u32
    ensures { (result ≡ charge_number list.old source cost number)
        × (list.new ≡ charge_list list.old source cost number) }
{
    let place = find(list, source, 0);
    if place >= list.len() {
        return unlisted(number);
    }
    match judge(list[place], cost, number) {
        Ok(charged) => {
            list[place] = charged;
            0
        }
        Err(refusal) => refusal,
    }
}

// A check keeps a bound as it goes along the list: the least number above every source so far, so 0 before the first record. A source that is
// not below it is new: it needs no search among them.

// The bound before the first record, of a list that is not too long.
#[tactic(auto, unfolding(crate::specs::Charges::first_bound, crate::specs::Records::max_quotas))]
fn first_bound(n: usize) -> Result<u64, Refusal>
    ensures { result ≡ first_bound n }
{
    if n > MAX_QUOTAS {
        Err(Refusal::QuotasMalformed)
    } else {
        Ok(0)
    }
}

// Where the search for the source of the record at i starts: at i where the source is above all before it, else at 0.
#[tactic(auto, unfolding(crate::specs::Charges::start_at))]
fn start_at(bound: u64, source: u32, i: usize) -> usize
    ensures { result ≡ start_at bound source i }
{
    if bound <= u64::from(source) { i } else { 0 }
}

// The bound after the record at i, whose source was found at `place`. The source may not stand before i too, nor spent be above the
// allowance.
#[tactic(auto, unfolding(crate::specs::Charges::bound_after))]
fn bound_after(bound: u64, quota: Quota, place: usize, i: usize) -> Result<u64, Refusal>
    ensures { result ≡ bound_after bound quota place i }
{
    if place != i || quota.allowance < quota.spent {
        return Err(Refusal::QuotasMalformed);
    }
    Ok(bound.max(u64::from(quota.source) + 1))
}

// The answer to a list, by this alone: it may not be too long, nor have a source twice, nor a record that spent above its allowance.
// One pass where the sources rise; else each source that is not above all before it is searched for from the start.
pub fn check(list: &[Quota]) -> Result<(), Refusal>
    ensures { number result ≡ quotas_number list.now }
{
    let mut bound = first_bound(list.len())?;
    for (i, quota) in list.iter().enumerate() {
        let place = find(list, quota.source, start_at(bound, quota.source, i));
        bound = bound_after(bound, *quota, place, i)?;
    }
    Ok(())
}
