// The refusal of a message that is too long, and the limits on lengths.
ghost use Rattle.std.specs.Prelude.{◌≡◌, ◌+◌};
ghost use Rattle.hash.specs.ShaD.{max_d_message, max_pool_length};
ghost use Rattle.hash.specs.Answers.{code, code-above-0, within};

use laws::Numbered;

// The message is longer than its limit.
#[derive(Clone, Copy)]
pub struct TooLong;

impl Numbered for TooLong {
    ghost code = { code };

    ghost above_0 = { code-above-0 };

    fn number(self) -> u32 {
        17
    }
}

// The longest message to SHA-256, to D, and the longest pool, in bytes.
pub(crate) const MAX_MESSAGE: u64 = 0x1fff_ffff_ffff_ffff;

pub(crate) const MAX_D_MESSAGE: u64 = MAX_MESSAGE - 64;

pub(crate) const MAX_POOL_LENGTH: u64 = MAX_D_MESSAGE;

// The longest message to D, in bytes.
// Kept: (a) a function that gives a constant, here and below: it is public, with a clause, and crates above rest on that.
#[tactic(auto, unfolding(crate::proofs::Computing::limiting))]
pub fn max_d_message() -> u64
    ensures { result ≡ max_d_message }
{
    MAX_D_MESSAGE
}

// The longest pool, in bytes.
#[tactic(auto, unfolding(crate::proofs::Computing::limiting))]
pub fn max_pool_length() -> u64
    ensures { result ≡ max_pool_length }
{
    MAX_POOL_LENGTH
}

// Whether a message of have + more bytes is within the limit. The sum itself might not fit.
#[tactic(auto, unfolding(crate::proofs::Computing::limiting))]
pub(crate) fn within(limit: u64, have: u64, more: u64) -> Result<(), TooLong>
    ensures { result ≡ within limit (have + more) tt }
{
    if have > limit || more > limit - have {
        return Err(TooLong);
    }
    Ok(())
}
