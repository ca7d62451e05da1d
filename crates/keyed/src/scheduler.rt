// The scheduler of source document 000, figure 6, with 32 pools and a bound of 1.
ghost use Rattle.std.specs.Prelude.{◌≡◌};
ghost use Rattle.keyed.specs.Scheduler.{step_block, input_pool, empties, output_pool, emptied_at};

// Block t, least significant byte first.
fn step_block(t: u64) -> [u8; 16]
    ensures { result ≡ step_block t }
{
    u128::from(t).to_le_bytes()
}

// The pool that the event at step t goes to.
#[tactic(auto, unfolding(crate::specs::Scheduler::input_pool, pools::specs::Events::pool_count))]
pub fn input_pool(key: [u8; 32], t: u64) -> u32
    ensures { result ≡ input_pool key t }
{
    let block = word_cipher::encrypt(key, step_block(t));
    u32::from(block[0] % 32)
}

// Whether step t empties a pool.
#[tactic(auto, unfolding(crate::specs::Scheduler::empties))]
pub(crate) fn empties(t: u64) -> bool
    ensures { result ≡ empties t }
{
    t > 0 && t % 32 == 0
}

// The pool that it empties: the largest i up to 31 with 32 * 2^i dividing t.
#[tactic(auto, using(crate::proofs::Outputs::output_by_zeros))]
pub(crate) fn output_pool(t: u64) -> u32
    ensures { result ≡ output_pool t }
{
    t.trailing_zeros().saturating_sub(5).min(31)
}

// The pool that step t empties, or 32 where it empties none.
// Kept: (a) 32 for none, and no Option: the clause, by `emptied_at`, says 32, and README does.
#[tactic(auto, unfolding(crate::specs::Scheduler::emptied_at, pools::specs::Events::pool_count))]
pub fn emptied_at(t: u64) -> u32
    ensures { result ≡ emptied_at t }
{
    if empties(t) { output_pool(t) } else { 32 }
}
