// AES-256 encryption (FIPS 197).
#![tactic(auto)]

mod block;
mod field;
mod key;
mod state;

pub use block::{encrypt, encrypt_with};
pub use field::{s_box, sub_byte};
pub use key::{Schedule, expand_key};
