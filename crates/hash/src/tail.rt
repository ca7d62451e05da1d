// Blocks made of a message's last bytes.
ghost use Rattle.std.specs.Prelude.{◌≡◌, ◌+◌, ◌*◌, ◌≤◌, ◌++◌, length, take};
ghost use Rattle.laws.specs.Lists.{tabulate};
ghost use Rattle.hash.specs.Padding.{length_byte};
ghost use Rattle.hash.specs.Hasher.{zero_filled};

use crate::bytes::length_bytes;
use laws::overwrite;

// The bytes of head, then s, then zeros.
pub(crate) fn filled(head: &[u8], s: &[u8]) -> [u8; 64]
    requires { length head.now + length s.now ≤ 64 }
    ensures { result ≡ zero_filled (head.now ++ s.now) }
{
    let mut block = [0u8; 64];
    overwrite(&mut block, head);
    overwrite(&mut block[head.len()..], s);
    block
}

// The last block: the first 56 bytes of block, then the length in bits.
pub(crate) fn with_length(mut block: [u8; 64], count: u64) -> [u8; 64]
    ensures { result ≡ take 56 block ++ tabulate (length_byte (8 * count)) 8 }
{
    block[56..].copy_from_slice(&length_bytes(count));
    block
}
