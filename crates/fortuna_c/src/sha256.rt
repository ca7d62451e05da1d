// SHA-256 and D of a caller's bytes, into a caller's buffer.
ghost use Rattle.std.specs.Prelude.{◌≡◌, length, MatchResult};
ghost use Rattle.hash.specs.Sha256.{sha256};
ghost use Rattle.hash.specs.ShaD.{max_message, max_d_message, D};
ghost use Rattle.hash.specs.Answers.{number, length_number};
ghost use Rattle.fortuna_c.specs.Buffers.{digest_buffer};

use hash::TooLong;
use laws::number_of;

// The answer's number; the digest goes into the buffer unless it was refused.
fn handed_out(hashed: Result<[u8; 32], TooLong>, digest: &mut [u8; 32]) -> u32
    ensures { (result ≡ number hashed) × MatchResult hashed (λ d. digest.new ≡ d) (λ _. digest.new ≡ digest.old) }
{
    if let Ok(d) = hashed {
        *digest = d;
    }
    number_of(hashed)
}

#[unsafe(no_mangle)]
pub extern "C" fn fortuna_sha256(data: &[u8], digest: &mut [u8; 32]) -> u32
    ensures { (result ≡ length_number max_message (length «data».now))
        × (digest.new
        ≡ digest_buffer max_message (length «data».now) digest.old (sha256 «data».now)) }
{
    handed_out(hash::sha256(data), digest)
}

#[unsafe(no_mangle)]
pub extern "C" fn fortuna_sha_d256(data: &[u8], digest: &mut [u8; 32]) -> u32
    ensures { (result ≡ length_number max_d_message (length «data».now))
        × (digest.new
        ≡ digest_buffer max_d_message (length «data».now) digest.old (D «data».now)) }
{
    handed_out(hash::sha_d256(data), digest)
}
