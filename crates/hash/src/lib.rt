// SHA-256 (FIPS 180-4): of a slice, of a message that comes in parts; and D, the book's SHA_d-256, as Fortuna's pools need it.
#![tactic(auto)]

mod answer;
mod block;
mod bytes;
mod digest;
mod hasher;
mod tail;
mod word;

pub use answer::{TooLong, max_d_message, max_pool_length};
pub use digest::{sha_d256, sha_d256_joined, sha256};
pub use hasher::{Hasher, Outcome};
