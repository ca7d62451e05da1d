// The number of bits of a try, and the bits that it keeps.
ghost use Rattle.std.specs.Prelude.{◌≡◌, ◌%◌, ◌^◌};
ghost use Rattle.generator.specs.Counter.{value};
ghost use Rattle.slots.specs.Fair.{bits_for};

// The smallest k with n ≤ 2^k, and 32 for every larger n.
pub fn bits_for(n: u64) -> u32
    ensures { result ≡ bits_for n }
{
    n.min(1 << 32).next_power_of_two().ilog2()
}

// The low k bits of the number of the bytes, least significant first, or all 32 where k is larger.
pub fn low_bits(bytes: [u8; 4], k: u32) -> u64
    ensures { result ≡ value bytes % 2 ^ k }
{
    u64::from(u32::from_le_bytes(bytes)) % (1 << k.min(32))
}
