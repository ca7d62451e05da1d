// The events behind a pool's byte string (02 (xiii)): a reader from a place in a string, counted from 0, to the event there and the next
// place.
#![tactic(auto)]

mod found;

ghost use Rattle.std.specs.Prelude.{◌≡◌, ◌+◌, ◌≤◌, cond, length, IfSome};
ghost use Rattle.history.specs.Reader.{source_at, length_at, whole_at, data_at, entry_at};

pub use found::{Entry, NoEvent};
use pools::{HEADER, MAX_DATA};

// The source in two bytes, least significant first.
#[tactic(auto, unfolding(crate::specs::Reader::source_at))]
fn source_at(string: &[u8], place: usize) -> u32
    requires { place + 2 ≤ length string.now }
    ensures { result ≡ source_at string.now place }
{
    u32::from(u16::from_le_bytes([string[place], string[place + 1]]))
}

// How many bytes of data the whole event at a place has, if one starts there. Before its data, 1 to 32 bytes, stand 3 others.
#[tactic(auto, using(crate::proofs::Sizes::whole_is), unfolding(crate::specs::Reader::length_at))]
fn size_at(string: &[u8], place: usize) -> Option<usize>
    ensures size { result ≡ cond (whole_at string.now place) (Some (length_at string.now place)) None }
    ensures room { IfSome result (λ n. place + 3 + n ≤ length string.now) }
{
    let total = string.len();
    if total <= HEADER || total - HEADER <= place {
        return None;
    }
    let size = usize::from(string[place + 2]);
    if size == 0 || MAX_DATA < size || total - HEADER - place < size {
        return None;
    }
    Some(size)
}

// What stands at a place; at the end of the string nothing does.
#[tactic(auto, using(crate::proofs::Sizes::entry_is))]
pub fn entry_at(string: &[u8], place: usize) -> Result<Option<Entry>, NoEvent>
    ensures { result ≡ entry_at string.now place }
{
    if place == string.len() {
        return Ok(None);
    }
    let size = size_at(string, place).ok_or(NoEvent { place })?;
    Ok(Some(Entry {
        source: source_at(string, place),
        from: place + HEADER,
        next: place + HEADER + size,
    }))
}

// The data of the event at a place, a part of the string; nothing where no whole event starts there.
// Kept: (a) no bytes for no event, and no Option: the clause, by `data_at`, and README say so.
#[tactic(auto, using(crate::proofs::Sizes::data_is))]
pub fn data_at(string: &[u8], place: usize) -> &[u8]
    ensures { result.now ≡ data_at string.now place }
{
    let Some(size) = size_at(string, place) else {
        return &string[..0];
    };
    let from = place + HEADER;
    let next = from + size;
    &string[from..next]
}
