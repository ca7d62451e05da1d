// AES-256 by tables of words, under an expanded key that the caller holds.
ghost use Rattle.std.specs.Prelude.{◌≡◌};
ghost use Rattle.cipher.specs.Aes.{key_expansion, cipher_with};
ghost use Rattle.word_cipher.specs.Words.{packed, unpacked};

use word_cipher::Schedule;

#[unsafe(no_mangle)]
pub extern "C" fn fortuna_aes256_expand(key: &[u8; 32]) -> Schedule
    ensures { result.words ≡ packed 60 (key_expansion key.now) }
{
    word_cipher::expand_key(*key)
}

#[unsafe(no_mangle)]
pub extern "C" fn fortuna_aes256_block(key: Schedule, block: &mut [u8; 16])
    ensures { block.new ≡ cipher_with (unpacked 240 key.words) block.old }
{
    *block = word_cipher::encrypt_with(key, *block);
}
