// What is to be done with a line, by the frame that it is.
ghost use Rattle.std.specs.Prelude.{◌≡◌, cond, ltb, Ok, Err};
ghost use Rattle.convert.specs.Texts.{max_narrow_source, action_of};
ghost use Rattle.convert.specs.declared.action.Action.TheVariants.{Keep, Widen, Narrow};
ghost use Rattle.convert.specs.declared.refusal.Refusal.TheVariants.{LargeSource};

use crate::refusal::Refusal;
use bench::frame::Frame;

const MAX_NARROW_SOURCE: u32 = 255;

// It stays; 01 becomes 05; 05 becomes 01.
#[derive(Clone, Copy)]
pub(crate) enum Action {
    Keep,
    Widen,
    Narrow,
}

// Frame 01.
fn event_action(wide: bool) -> Action
    ensures { result ≡ cond wide Widen Keep }
{
    if wide { Action::Widen } else { Action::Keep }
}

// Frame 05.
#[tactic(auto, unfolding(crate::specs::Texts::max_narrow_source))]
fn wide_event_action(source: u32, wide: bool) -> Result<Action, Refusal>
    ensures { result ≡ cond wide (Ok Keep) (cond (ltb max_narrow_source source) (Err LargeSource) (Ok Narrow)) }
{
    if wide {
        return Ok(Action::Keep);
    }
    if MAX_NARROW_SOURCE < source {
        return Err(Refusal::LargeSource);
    }
    Ok(Action::Narrow)
}

// What is to be done with a line where 05 is wanted (`wide`), or 01; or why it is refused.
#[tactic(auto, unfolding(crate::specs::Texts::action_of))]
pub(crate) fn action_of(frame: Option<Frame>, wide: bool) -> Result<Action, Refusal>
    ensures { result ≡ action_of wide frame }
{
    match frame {
        Some(Frame::Event { .. }) => Ok(event_action(wide)),
        Some(Frame::Request { .. } | Frame::Update { .. } | Frame::Write { .. }) => {
            Ok(Action::Keep)
        }
        Some(Frame::WideEvent { source, .. }) => wide_event_action(source, wide),
        None => Err(Refusal::NoFrame),
    }
}
