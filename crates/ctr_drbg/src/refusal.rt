// Why an operation is refused, by 02's numbers.
ghost use Rattle.ctr_drbg.specs.Operations.{code, code-above-0};

use laws::Numbered;

#[derive(Clone, Copy)]
pub enum Refusal {
    RequestTooLong = 14,
    EntropyLength = 40,
    InputTooLong = 41,
    SeedingNeeded = 42,
}

impl Numbered for Refusal {
    ghost code = { code };

    ghost above_0 = { code-above-0 };

    #[tactic(auto, unfolding(crate::specs::Operations::code))]
    fn number(self) -> u32 {
        self as u32
    }
}
