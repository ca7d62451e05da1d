// The 128-bit counter: 16 bytes, least significant first.
ghost use Rattle.std.specs.Prelude.{◌≡◌};
ghost use Rattle.generator.specs.Counter.{value, counter_block};

// The number that the bytes stand for.
pub(crate) fn value(counter: [u8; 16]) -> u128
    ensures { result ≡ value counter }
{
    u128::from_le_bytes(counter)
}

// The bytes of a number: what the cipher is handed.
pub(crate) fn counter_block(count: u128) -> [u8; 16]
    ensures { result ≡ counter_block count }
{
    count.to_le_bytes()
}
