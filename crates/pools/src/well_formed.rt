// Whether a pool is malformed (21). The check is made at every call, so it has no branch inside a pool's tail.
ghost use Rattle.std.specs.Prelude.{◌≡◌, ◌<◌, drop};
ghost use Rattle.laws.specs.Lists.{all_zero};
ghost use Rattle.pools.specs.Pool.{malformed_pool};
ghost use Rattle.pools.specs.State.{any_pool};

use hash::Hasher;

// 63 bytes that keep nothing, then 64 that keep all: from 63 - n on, what stands after n bytes is kept.
static MASKS: [u8; 127] = [
    0, 0, 0, 0, 0, 0, 0, 0, 0, 0, 0, 0, 0, 0, 0, 0, 0, 0, 0, 0, 0, 0, 0, 0, 0, 0, 0, 0, 0, 0, 0, 0,
    0, 0, 0, 0, 0, 0, 0, 0, 0, 0, 0, 0, 0, 0, 0, 0, 0, 0, 0, 0, 0, 0, 0, 0, 0, 0, 0, 0, 0, 0, 0,
    255, 255, 255, 255, 255, 255, 255, 255, 255, 255, 255, 255, 255, 255, 255, 255, 255, 255, 255,
    255, 255, 255, 255, 255, 255, 255, 255, 255, 255, 255, 255, 255, 255, 255, 255, 255, 255, 255,
    255, 255, 255, 255, 255, 255, 255, 255, 255, 255, 255, 255, 255, 255, 255, 255, 255, 255, 255,
    255, 255, 255, 255, 255, 255, 255,
];

// Whether the bytes from `at` on are zero.
// Kept: (a) a loop over masks, and no `all_zero(&tail[at..])`: no branch inside a tail (docs/decisions/pools.md).
fn is_zero_from(tail: &[u8; 64], at: usize) -> bool
    requires { at < 64 }
    ensures { result ≡ all_zero (drop at tail.now) }
{
    let mut bits = 0u8;
    for (byte, mask) in tail.iter().zip(&MASKS[63 - at..]) {
        bits |= byte & mask;
    }
    bits == 0
}

// Whether a pool is too long, has bytes behind its tail that are not 0, or has another running hash than the empty pool's though it is short.
#[tactic(auto, using(crate::proofs::WellFormed::pool))]
fn pool_malformed(pool: &Hasher) -> bool
    ensures { result ≡ malformed_pool pool.now }
{
    pool.length > hash::max_pool_length()
        || !is_zero_from(&pool.tail, (pool.length % 64) as usize)
        || pool.length < 64 && pool.chain != Hasher::empty_pool().chain
}

// Whether one of the pools is malformed, for a state of any kind.
pub fn any_malformed(pools: &[Hasher; 32]) -> bool
    ensures { result ≡ any_pool malformed_pool pools.now }
{
    pools.iter().any(pool_malformed)
}
