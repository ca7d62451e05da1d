// The C interface: include/fortuna.h says the same in C's words.
#![tactic(auto)]

mod aes256;
mod aes256_bytewise;
mod call_logs;
mod ctr_drbg_calls;
mod fortuna_generator;
mod health_tests;
mod keyed_calls;
mod keyed_metered_calls;
mod metered_calls;
mod pool_strings;
mod sha256;
mod slot_draws;
mod station;
mod whole_log;

pub use aes256::{fortuna_aes256_block, fortuna_aes256_expand};
pub use aes256_bytewise::{fortuna_aes256_bytewise_block, fortuna_aes256_bytewise_expand};
pub use call_logs::{FortunaConversion, fortuna_convert};
pub use ctr_drbg_calls::{
    fortuna_ctr_drbg_generate, fortuna_ctr_drbg_instantiate, fortuna_ctr_drbg_new,
    fortuna_ctr_drbg_reseed,
};
pub use fortuna_generator::{
    FortunaGeneratorOutcome, fortuna_generator_blocks, fortuna_generator_new,
    fortuna_generator_request, fortuna_generator_reseed,
};
pub use health_tests::{FortunaHealthAnswer, fortuna_health_new, fortuna_health_test};
pub use keyed_calls::{
    fortuna_keyed_event, fortuna_keyed_input, fortuna_keyed_new, fortuna_keyed_output,
    fortuna_keyed_request, fortuna_keyed_update, fortuna_keyed_write,
};
pub use keyed_metered_calls::{
    fortuna_keyed_metered_event, fortuna_keyed_metered_request, fortuna_keyed_metered_update,
    fortuna_keyed_metered_write,
};
pub use metered_calls::{
    fortuna_metered_event, fortuna_metered_random_below, fortuna_metered_request,
    fortuna_metered_shuffle, fortuna_metered_update, fortuna_metered_write,
};
pub use pool_strings::{FortunaEntry, fortuna_entry_at};
pub use sha256::{fortuna_sha_d256, fortuna_sha256};
pub use slot_draws::{FortunaDraw, fortuna_random_below, fortuna_shuffle};
pub use station::{
    FortunaAnswer, fortuna_event, fortuna_new, fortuna_request, fortuna_update, fortuna_write,
};
pub use whole_log::fortuna_log;
