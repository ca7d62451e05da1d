// The events behind a pool's byte string.
ghost use Rattle.std.specs.Prelude.{◌≡◌};
ghost use Rattle.history.specs.Reader.{entry_at};
ghost use Rattle.fortuna_c.specs.PoolStrings.{entry_of};

use history::{Entry, NoEvent, entry_at};
use laws::number_of;

// 0 or 44; the event's source; whether an event was found; the place that was asked for; where the event's data start, and the next place.
// Where no event was found the source is 0, and `from` and `next` are the place asked for.
// Kept: (a) a number, `found`, and fields that hold where it is set: C has no Result and no Option, and include/fortuna.h has this struct.
#[repr(C)]
#[derive(Clone, Copy)]
pub struct FortunaEntry {
    pub number: u32,
    pub source: u32,
    pub found: bool,
    pub place: usize,
    pub from: usize,
    pub next: usize,
}

// An answer as C takes it.
// Kept: (d) no From: what C is told has the place asked for too, which no answer holds.
#[tactic(auto, unfolding(crate::specs::PoolStrings::entry_of))]
fn entry_of(answer: Result<Option<Entry>, NoEvent>, place: usize) -> FortunaEntry
    ensures { result ≡ entry_of place answer }
{
    let number = number_of(answer);
    match answer {
        Ok(Some(Entry { source, from, next })) => FortunaEntry {
            number,
            source,
            found: true,
            place,
            from,
            next,
        },
        Ok(None) => FortunaEntry {
            number,
            source: 0,
            found: false,
            place,
            from: place,
            next: place,
        },
        Err(NoEvent { place: at }) => FortunaEntry {
            number,
            source: 0,
            found: false,
            place: at,
            from: at,
            next: at,
        },
    }
}

#[unsafe(no_mangle)]
pub extern "C" fn fortuna_entry_at(string: &[u8], place: usize) -> FortunaEntry
    ensures { result ≡ entry_of place (entry_at string.now place) }
{
    entry_of(entry_at(string, place), place)
}
