// Draws below n and shuffles of a list (02 (i)). Each try is an ordinary request of 4 bytes.
#![tactic(auto)]

mod draw;
mod shuffles;

pub use draw::{Draw, random_below};
pub use shuffles::shuffle;
