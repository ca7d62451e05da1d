// The example of the README: a polling list is shuffled and a slot is drawn for each station. Writes the list, then the slots, a byte each.
#![tactic(auto)]

use draws::{random_below, shuffle};
use pools::Fortuna;
use std::io;

const STATIONS: usize = 12;

const SLOTS: u64 = 200;

const CLOCK: u32 = 1000;

fn main(rt: HostRuntime) -> io::Result<()> {
    let mut seed = [7u8; 64];
    seed[0] = 1; // not blank
    let mut state = Fortuna::new().update_seed(CLOCK, &mut seed).next;
    let mut list = [0u16, 1, 2, 3, 4, 5, 6, 7, 8, 9, 10, 11];
    state = shuffle(state, CLOCK, &mut list).next;
    let mut bytes = [0u8; 2 * STATIONS];
    for (byte, number) in bytes.iter_mut().zip(&list) {
        *byte = (*number % 256) as u8;
    }
    for slot in &mut bytes[STATIONS..] {
        let drawn = random_below(state, CLOCK, SLOTS, 64);
        state = drawn.next;
        *slot = (drawn.answer.unwrap_or(0) % 256) as u8;
    }
    rt.write_all(&bytes)
}
