// AES-256 encryption (FIPS 197) by four tables of words: the cipher of `cipher` a second time, for speed.
// Kept: (a) a second cipher under the same names: C has both, and `CiphersAgree` of specs says that they agree.
#![tactic(auto)]

mod block;
mod key;
mod table;
mod word;

pub use block::{encrypt, encrypt_by, encrypt_with, write_block};
pub use key::{Schedule, expand_key};
pub use table::tables;
