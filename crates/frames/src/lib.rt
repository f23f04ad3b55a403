// Frames as index octets, seven a frame: the test for a zero frame, with which an utterance ends.
#![tactic(auto)]

ghost use Rattle.std.specs.Prelude.{◌≡◌, ◌+◌, ◌*◌, ◌≤◌, length};
ghost use Rattle.layout.specs.Layout.{frame_indices};
ghost use Rattle.frames.specs.Frames.{zero_frame};

use layout::{Frame, FrameLayout};

// is_zero says whether all indices of a frame are zero. It asks that the index octets hold the frame, a fact of
// both together.
pub fn is_zero(index: &[u8], frame: Frame) -> bool
    requires { frame_indices * frame.0 + frame_indices ≤ length index.now }
    ensures { result ≡ zero_frame index.now frame.0 }
{
    let start = FrameLayout::INDICES * frame.0;
    index[start..start + FrameLayout::INDICES]
        .iter()
        .all(|x| *x == 0)
}
