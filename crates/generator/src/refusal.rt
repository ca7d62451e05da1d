// Why an operation is refused, by 01's numbers.
ghost use Rattle.generator.specs.Operations.{code, code-above-0};

use laws::Numbered;

#[derive(Clone, Copy)]
pub enum Refusal {
    RequestTooLong = 14,
    SeedTooLong = 17,
    Malformed = 21,
    Unseeded = 23,
    CounterSpent = 24,
}

impl Numbered for Refusal {
    ghost code = { code };

    ghost above_0 = { code-above-0 };

    #[tactic(auto, unfolding(crate::specs::Operations::code))]
    fn number(self) -> u32 {
        self as u32
    }
}
