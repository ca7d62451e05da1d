// Strings of seedlen, 48 bytes.
ghost use Rattle.std.specs.Prelude.{◌≡◌, ◌≤◌, length};
ghost use Rattle.ctr_drbg.specs.Algorithms.{seed_length, xored, padded};

use laws::overwrite;
use std::array;

// Up to 48 bytes, with zeros behind them.
pub(crate) fn padded(s: &[u8]) -> [u8; 48]
    requires { length s.now ≤ seed_length }
    ensures { result ≡ padded s.now }
{
    let mut r = [0u8; 48];
    overwrite(&mut r, s);
    r
}

// The exclusive or.
// Kept: (c) beside `xor_word` of cipher (4 bytes; here 48): of the closure in one function over `N` the check finds no element.
pub(crate) fn xored(s: [u8; 48], t: [u8; 48]) -> [u8; 48]
    ensures { result ≡ xored s t }
{
    array::from_fn(|i| s[i] ^ t[i])
}
