// Calls that take a list of quotas (02 (x)), of the present scheduler and of the keyed one, on a state by value. A call that is no event asks
// the list before the state; an event has its own answer first, and is charged where the list accepts it too.
#![tactic(auto)]

mod calls;
mod events;
mod gates;
mod keyed_calls;

pub use calls::{random_below, random_data, shuffle, update_seed, write_seed};
pub use events::{add_event, gain_of};
pub use keyed_calls::{keyed_add_event, keyed_random_data, keyed_update_seed, keyed_write_seed};
