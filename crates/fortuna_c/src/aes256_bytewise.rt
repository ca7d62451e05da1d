// AES-256 byte by byte: of the two ciphers the one that reads the smaller table.
// Kept: (a) a module like aes256: C has both ciphers, each by its own names (include/fortuna.h).
ghost use Rattle.std.specs.Prelude.{◌≡◌};
ghost use Rattle.cipher.specs.Aes.{key_expansion, cipher_with};

use cipher::Schedule;

#[unsafe(no_mangle)]
pub extern "C" fn fortuna_aes256_bytewise_expand(key: &[u8; 32]) -> Schedule
    ensures { result.words ≡ key_expansion key.now }
{
    cipher::expand_key(*key)
}

#[unsafe(no_mangle)]
pub extern "C" fn fortuna_aes256_bytewise_block(key: Schedule, block: &mut [u8; 16])
    ensures { block.new ≡ cipher_with key.words block.old }
{
    *block = cipher::encrypt_with(key, *block);
}
