// What a conversion comes to.
ghost use Rattle.std.specs.Prelude.{◌≡◌};
ghost use Rattle.convert.specs.Promises.{refused_code, refused_code-above-0, refused_line};

use crate::refusal::Refusal;
use laws::Numbered;

// A refused line: which it is, from 1, and why.
#[derive(Clone, Copy)]
pub struct Refused {
    pub line: usize,
    pub refusal: Refusal,
}

impl Numbered for Refused {
    ghost code = { refused_code };

    ghost above_0 = { refused_code-above-0 };

    fn number(self) -> u32 {
        self.refusal.number()
    }
}

// Whether every line was converted, or which was refused; and how many bytes were written.
#[derive(Clone, Copy)]
pub struct Outcome {
    pub answer: Result<(), Refused>,
    pub written: usize,
}

impl Outcome {
    // The number of the refused line, from 1, or 0 where none was refused.
    // Kept: (a) 0 for none, and no Option: the clause, by `refused_line`, says 0, as C has it (fortuna_conversion).
    pub fn line(self) -> usize
        ensures { result ≡ refused_line self.answer }
    {
        match self.answer {
            Ok(()) => 0,
            Err(refused) => refused.line,
        }
    }
}
