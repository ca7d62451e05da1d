// Buffers of which the first places are in use.
ghost use Rattle.std.specs.Prelude.{◌≡◌};
ghost use Rattle.bench.specs.Buffers.{appended, held_after};

use laws::overwrite;

// More characters after the first `held`, as many as there is room for. Returns how many are then held.
// Kept: (a) `held` beside the buffer, and no Vec: there is no heap, and `log` is lent its buffer (a Session has both as fields).
pub(crate) fn append(buffer: &mut [u8], held: usize, more: &[u8]) -> usize
    ensures { (buffer.new ≡ appended buffer.old held more.now) × (result ≡ held_after buffer.old held more.now) }
{
    let held = held.min(buffer.len());
    let stored = more.len().min(buffer.len() - held);
    overwrite(&mut buffer[held..], more);
    held + stored
}
