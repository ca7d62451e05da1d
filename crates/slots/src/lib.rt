// Radio slots (02 (i)): what a try below n keeps of its 4 bytes, and which lists can be shuffled.
#![tactic(auto)]

mod bits;
mod repeats;

pub use bits::{bits_for, low_bits};
pub use repeats::has_repeat;
