// Sizes of requests.
ghost use Rattle.std.specs.Prelude.{◌≡◌};
ghost use Rattle.generator.specs.Refusals.{max_request};

const MAX_REQUEST: usize = 1048576;

// The most bytes of one request.
// Kept: (a) a function that gives a constant: it is public, with a clause, and crates above rest on that.
#[tactic(auto, unfolding(crate::specs::Refusals::max_request))]
pub fn max_request() -> usize
    ensures { result ≡ max_request }
{
    MAX_REQUEST
}
