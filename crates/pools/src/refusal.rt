// Why a call is refused.
ghost use Rattle.pools.specs.Promises.{code, code-above-0};

use laws::Numbered;

#[derive(Clone, Copy)]
pub enum Refusal {
    SourceOutOfRange = 11,
    PoolOutOfRange = 12,
    DataLength = 13,
    RequestTooLong = 14,
    SeedSize = 15,
    Malformed = 21,
    PoolFull = 22,
    Unseeded = 23,
    CounterSpent = 24,
    SlotRange = 31,
    TryRange = 32,
    NoneDrawn = 33,
    BlankSeed = 36,
    QuotasMalformed = 37,
    SourceNotListed = 38,
    OverAllowance = 39,
    StepsSpent = 45,
}

impl Numbered for Refusal {
    ghost code = { code };

    ghost above_0 = { code-above-0 };

    fn number(self) -> u32 {
        self as u32
    }
}
