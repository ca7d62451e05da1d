// Why a line is refused.
ghost use Rattle.convert.specs.Promises.{code, code-above-0};

use laws::Numbered;

// It is no frame; its source is too large for frame 01; there is no room for it.
#[derive(Clone, Copy)]
pub enum Refusal {
    NoFrame = 16,
    LargeSource = 43,
    NoRoom = 46,
}

impl Numbered for Refusal {
    ghost code = { code };

    ghost above_0 = { code-above-0 };

    fn number(self) -> u32 {
        self as u32
    }
}
