// What the pools that a reseed uses give, and the count of requests.
ghost use Rattle.std.specs.Prelude.{◌≡◌, false};
ghost use Rattle.pools.specs.Schedule.{count_request};
ghost use Rattle.pools.specs.Pool.{malformed_pool};
ghost use Rattle.pools.specs.State.{any_pool};
ghost use Rattle.pools.specs.Collected.{Collects};

use hash::Hasher;

// Empties the pools that reseed `number` uses, puts their digests in front of `seed`, and says how many they are. They are the first ones:
// a power of two divides the number only where all lower ones do.
// Kept: (d) a count beside the buffer: if the filled part were given back, the caller would get the count by a division.
pub(crate) fn collect_digests(pools: &mut [Hasher; 32], number: u32, seed: &mut [u8; 1024]) -> usize
    requires { any_pool malformed_pool pools.old ≡ false }
    ensures { Collects pools.old number pools.new seed.new result }
{
    let count = (number.trailing_zeros() as usize + 1).min(32);
    let empty = Hasher::empty_pool();
    for (i, pool) in pools[..count].iter_mut().enumerate() {
        let digest = pool.pool_digest().unwrap();
        seed[32 * i..32 * i + 32].copy_from_slice(&digest);
        *pool = empty;
    }
    count
}

// One request more on the key, up to 65,535.
#[tactic(auto, unfolding(crate::specs::Schedule::count_request, crate::specs::Schedule::max_key_requests))]
pub fn counted(n: u16) -> u16
    ensures { result ≡ count_request n }
{
    n.saturating_add(1)
}
