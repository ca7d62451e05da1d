// What stands at a place of a string, or why nothing does.
ghost use Rattle.history.specs.Reader.{code, code-above-0};

use laws::Numbered;

// An event, whose data are the bytes from `from` up to `next`, the next place.
#[derive(Clone, Copy)]
pub struct Entry {
    pub source: u32,
    pub from: usize,
    pub next: usize,
}

// 44, with the place: no whole event starts there, or it is past the end.
#[derive(Clone, Copy)]
pub struct NoEvent {
    pub place: usize,
}

impl Numbered for NoEvent {
    ghost code = { code };

    ghost above_0 = { code-above-0 };

    fn number(self) -> u32 {
        44
    }
}
