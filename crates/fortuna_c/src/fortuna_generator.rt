// The generator alone. The state is passed by value, and the next one comes back in the outcome.
ghost use Rattle.std.specs.Prelude.{◌≡◌};
ghost use Rattle.generator.specs.Operations.{number, fresh, reseed_answer, reseeded, blocks_answer, blocks_made, blocks_buffer, request_answer, requested, request_buffer};

use generator::{Generator, Outcome};
use laws::number_of;

// The refusal's number, or 0, and the state that follows.
// Kept: (a) a number in place of a Result: C has none, and include/fortuna.h has this struct.
#[repr(C)]
#[derive(Clone, Copy)]
pub struct FortunaGeneratorOutcome {
    pub number: u32,
    pub next: Generator,
}

impl From<Outcome> for FortunaGeneratorOutcome {
    ghost from_gives = { λ o r. (r.number ≡ number o.answer) × (r.next ≡ o.next) };

    fn from(o: Outcome) -> FortunaGeneratorOutcome {
        FortunaGeneratorOutcome {
            number: number_of(o.answer),
            next: o.next,
        }
    }
}

#[unsafe(no_mangle)]
pub extern "C" fn fortuna_generator_new() -> Generator
    ensures { result ≡ fresh }
{
    Generator::new()
}

#[unsafe(no_mangle)]
pub extern "C" fn fortuna_generator_reseed(state: Generator, seed: &[u8]) -> FortunaGeneratorOutcome
    ensures { (result.number ≡ reseed_answer state seed.now) × (result.next ≡ reseeded state seed.now) }
{
    state.reseed(seed).into()
}

#[unsafe(no_mangle)]
pub extern "C" fn fortuna_generator_blocks(
    state: Generator,
    out: &mut [u8],
) -> FortunaGeneratorOutcome
    ensures { (result.number ≡ blocks_answer state out.old) × (result.next ≡ blocks_made state out.old) × (out.new ≡ blocks_buffer state out.old) }
{
    state.generate_blocks(out).into()
}

#[unsafe(no_mangle)]
pub extern "C" fn fortuna_generator_request(
    state: Generator,
    out: &mut [u8],
) -> FortunaGeneratorOutcome
    ensures { (result.number ≡ request_answer state out.old) × (result.next ≡ requested state out.old) × (out.new ≡ request_buffer state out.old) }
{
    state.pseudo_random_data(out).into()
}
