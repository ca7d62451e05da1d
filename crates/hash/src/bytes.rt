// Numbers and hash values as bytes, the most significant first.
ghost use Rattle.std.specs.Prelude.{◌≡◌, ◌*◌};
ghost use Rattle.laws.specs.Lists.{tabulate};
ghost use Rattle.hash.specs.Padding.{length_byte};
ghost use Rattle.hash.specs.Sha256.{words_byte};

use std::array;

// The length in bits of a message of count bytes.
pub(crate) fn length_bytes(count: u64) -> [u8; 8]
    ensures { result ≡ tabulate (length_byte (8 * count)) 8 }
{
    (count << 3).to_be_bytes()
}

// The hash value as a digest.
pub(crate) fn digest_bytes(h: [u32; 8]) -> [u8; 32]
    ensures { result ≡ tabulate (words_byte h) 32 }
{
    array::from_fn(|i| h[i / 4].to_be_bytes()[i % 4])
}
