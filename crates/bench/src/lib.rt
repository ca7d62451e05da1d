// Bench lines: frames in capital hexadecimal, each carried out on a Fortuna state, and what each prints.
#![tactic(auto)]

mod buffer;
pub mod frame;
mod hex;
pub mod input;
pub mod line;
pub mod log;
mod print;
