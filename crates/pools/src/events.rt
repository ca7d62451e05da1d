// What an event puts into its pool.
ghost use Rattle.std.specs.Prelude.{◌≡◌, ◌+◌, ◌≤◌, length};
ghost use Rattle.hash.specs.ShaD.{max_pool_length};
ghost use Rattle.hash.specs.Hasher.{absorb};
ghost use Rattle.pools.specs.Events.{max_source, max_data, event_bytes, gain};
ghost use Rattle.pools.specs.Refusals.{gained_pool};

use crate::refusals::event_answer;
use hash::Hasher;

// The bytes before the data: two of the source, least significant first, and the length.
pub const HEADER: usize = 3;

// The most data of an event.
pub const MAX_DATA: usize = 32;

// The pool after an event: header and data in one part.
#[tactic(auto, unfolding(crate::specs::Events::max_source, crate::specs::Events::max_data))]
pub(crate) fn gained(pool: Hasher, source: u32, data: &[u8]) -> Hasher
    requires { (source ≤ max_source) × (length «data».now ≤ max_data) × (pool.length + gain (length «data».now) ≤ max_pool_length) }
    ensures { result ≡ absorb pool (event_bytes source «data».now) }
{
    let [low, high] = (source as u16).to_le_bytes();
    let n = data.len();
    let mut bytes = [0u8; HEADER + MAX_DATA];
    bytes[..HEADER].copy_from_slice(&[low, high, n as u8]);
    bytes[HEADER..HEADER + n].copy_from_slice(data);
    pool.absorb(&bytes[..HEADER + n]).next
}

// The pool after an event, or as it was where the source, the data or the room refuses it.
pub fn gained_pool(pool: Hasher, source: u32, data: &[u8]) -> Hasher
    ensures { result ≡ gained_pool pool source «data».now }
{
    if event_answer(false, pool.length, source, 0, data.len()).is_ok() {
        gained(pool, source, data)
    } else {
        pool
    }
}
