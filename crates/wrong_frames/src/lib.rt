// Frames that cannot be written: one with an index that is too large, and a zero frame that would end the utterance too early.
#![tactic(auto)]

ghost use Rattle.std.specs.Prelude.{◌≡◌, ◌+◌, ◌*◌, ◌≤◌, length};
ghost use Rattle.layout.specs.Layout.{frame_indices};
ghost use Rattle.wrong_frames.specs.WrongFrames.{is_wide, ends_early, first_wide, first_early};
ghost use Rattle.wrong_frames.specs.Laws.{found_as, CanTest, FirstOf};

use layout::{Frame, FrameLayout, MultiframeLayout};

// The largest index of six bits.
const LARGEST: u8 = 63;

// Is one of the first six indices of the frame above 63?
fn is_wide(indices: &[u8], frame: Frame) -> bool
    requires { frame_indices * (frame.0 + 1) ≤ length indices.now }
    ensures { result ≡ is_wide indices.now frame.0 }
{
    let from = FrameLayout::INDICES * frame.0;
    indices[from..from + FrameLayout::NARROW]
        .iter()
        .any(|index| LARGEST < *index)
}

// Is it a zero frame that must not be one: the last, or one whose number from 1 is a multiple of 24?
fn ends_early(indices: &[u8], frame: Frame) -> bool
    requires { frame_indices * (frame.0 + 1) ≤ length indices.now }
    ensures { result ≡ ends_early indices.now frame.0 }
{
    let number = frame.0 + 1;
    // Tested with ||, the search for such a frame takes a third longer: the compiler takes the last frame out of its loop only so.
    if number == indices.len() / FrameLayout::INDICES {
        frames::is_zero(indices, frame)
    } else {
        number % MultiframeLayout::FRAMES == 0 && frames::is_zero(indices, frame)
    }
}

// The first of so many frames that is wrong, by a test.
#[tactic(auto, unfolding(crate::specs::Laws::FirstOf))]
fn first<F: Fn(Frame) -> bool>(frames: usize, wrong: F) -> Option<Frame>
    requires { CanTest frames (F.pre wrong) }
    ensures { FirstOf frames (F.post wrong) result }
{
    for k in 0..frames {
        if wrong(Frame(k)) {
            return Some(Frame(k));
        }
    }
    None
}

// first_wide gives the first frame with an index that is too large.
pub fn first_wide(indices: &[u8]) -> Option<Frame>
    ensures { found_as result ≡ first_wide indices.now }
{
    first(indices.len() / FrameLayout::INDICES, |frame| {
        is_wide(indices, frame)
    })
}

// first_early gives the first zero frame that must not be one.
pub fn first_early(indices: &[u8]) -> Option<Frame>
    ensures { found_as result ≡ first_early indices.now }
{
    first(indices.len() / FrameLayout::INDICES, |frame| {
        ends_early(indices, frame)
    })
}
