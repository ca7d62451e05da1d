// Refusals by number.
ghost use Rattle.std.specs.Prelude.{◌≡◌, ◌<◌, ℕ};
ghost use Rattle.laws.specs.Refusals.{number_of};

// A reason to refuse a call, which has a fixed number. 0 is no refusal's.
pub trait Numbered {
    ghost code: { Self → ℕ };

    ghost above_0: { (refusal : Self) → 0 < code refusal };

    fn number(self) -> u32
        ensures { result ≡ code self };
}

// 0 where the call was done, else the refusal's number.
pub fn number_of<T: Copy, R: Numbered + Copy>(answer: Result<T, R>) -> u32
    ensures { result ≡ number_of R.code answer }
{
    match answer {
        Ok(_) => 0,
        Err(refusal) => refusal.number(),
    }
}

// What an operation gives back: its answer, and the state that follows.
#[derive(Clone, Copy)]
pub struct Outcome<S, R> {
    pub answer: Result<(), R>,
    pub next: S,
}
