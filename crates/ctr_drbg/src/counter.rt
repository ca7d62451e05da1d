// V: 128 bits in 16 bytes, most significant first. V is secret, so no branch depends on its bits.
ghost use Rattle.std.specs.Prelude.{◌≡◌};
ghost use Rattle.ctr_drbg.specs.Counter.{increment};

// V plus 1 modulo 2^128, with no test of a byte.
#[tactic(auto, using(crate::proofs::Digits::stepped), unfolding(crate::specs::Counter::increment))]
pub(crate) fn increment(v: [u8; 16]) -> [u8; 16]
    ensures { result ≡ increment v }
{
    u128::from_be_bytes(v).wrapping_add(1).to_be_bytes()
}
