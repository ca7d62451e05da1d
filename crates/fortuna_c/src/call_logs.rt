// Call logs of both kinds.
ghost use Rattle.std.specs.Prelude.{◌≡◌, length};
ghost use Rattle.laws.specs.Refusals.{number_of};
ghost use Rattle.convert.specs.Logs.{conversion};
ghost use Rattle.convert.specs.Promises.{refused_code, refused_line};
ghost use Rattle.fortuna_c.specs.Conversions.{LeavesConverted};

use convert::{Outcome, convert};
use laws::number_of;

// 0 or the number that refused a line; that line's number, from 1, or 0; and how many bytes were written.
// Kept: (a) a number, and line 0 for none: C has no Result, and include/fortuna.h has this struct.
#[repr(C)]
#[derive(Clone, Copy)]
pub struct FortunaConversion {
    pub number: u32,
    pub line: usize,
    pub written: usize,
}

impl From<Outcome> for FortunaConversion {
    ghost from_gives = { λ o r. (r.number ≡ number_of refused_code o.answer) × (r.line ≡ refused_line o.answer) × (r.written ≡ o.written) };

    fn from(o: Outcome) -> FortunaConversion {
        FortunaConversion {
            number: number_of(o.answer),
            line: o.line(),
            written: o.written,
        }
    }
}

#[unsafe(no_mangle)]
pub extern "C" fn fortuna_convert(log: &[u8], wide: bool, out: &mut [u8]) -> FortunaConversion
    ensures { LeavesConverted (conversion wide (length out.old) log.now) result out.old out.new }
{
    convert(log, wide, out).into()
}
