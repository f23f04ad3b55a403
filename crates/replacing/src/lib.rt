// Replacing the frames of bad pairs by the good frames around them, and what the frames then say of the end of speech.
#![tactic(auto)]

ghost use Rattle.std.specs.Prelude.{◌≡◌, ◌+◌, ◌*◌, ◌^◌, ◌≤◌, ◌<◌, length};
ghost use Rattle.lists.specs.Parts.{over};
ghost use Rattle.layout.specs.Layout.{frame_indices, index_octets, most_multiframes, second_frame};
ghost use Rattle.replacing.specs.Replacing.{run_end, middle_frame, pairs_octets, replaced};
ghost use Rattle.bad_pairs.specs.Laws.{Good};
ghost use Rattle.replacing.specs.Steps.{Spread, Filled};
ghost use Rattle.replacing.specs.Speech.{speech_of, end_of};

use bad_pairs::GOOD;
use layout::{Frame, FrameLayout, Multiframe, MultiframeLayout, Pair};

// The first good pair from q on, or the number of pairs.
fn run_end(notes: &[u8], q: Pair) -> Pair
    requires { q.0 ≤ length notes.now }
    ensures { result.0 ≡ run_end notes.now q.0 }
{
    let bad = notes[q.0..]
        .iter()
        .take_while(|note| **note != GOOD)
        .count();
    Pair(q.0 + bad)
}

// Frame source goes over the frames from first to past - 1.
fn spread(index: &mut [u8], source: Frame, first: Frame, past: Frame)
    requires source_in_bounds { frame_indices * source.0 + frame_indices ≤ length index.old }
    requires frames_in_bounds { (first.0 ≤ past.0) × (frame_indices * past.0 ≤ length index.old) }
    ensures { Spread index.old index.new source.0 first.0 past.0 }
{
    let from = FrameLayout::INDICES * source.0;
    for k in first.0..past.0 {
        index.copy_within(from..from + FrameLayout::INDICES, FrameLayout::INDICES * k);
    }
}

// The frame behind the first half of the run of pairs a to b - 1: of its B pairs' frames, B make a half.
fn middle(a: Pair, b: Pair) -> Frame
    requires { (a.0 ≤ b.0) × (second_frame b.0 < 2 ^ 64) }
    ensures { result.0 ≡ middle_frame a.0 b.0 }
{
    let half = b.0 - a.0;
    Frame(a.first().0 + half)
}

// The frames of the run of bad pairs from a to b - 1, of so many pairs, are replaced.
fn fill_run(index: &mut [u8], a: Pair, b: Pair, pairs: usize)
    requires { (a.0 < b.0) × (b.0 ≤ pairs) × (pairs_octets pairs ≤ length index.old) × (a.0 ≡ 0 → b.0 < pairs) }
    ensures { Filled index.old index.new a.0 b.0 pairs }
{
    let start = a.first();
    let after = b.first();
    if a.0 == 0 {
        spread(index, after, start, after);
        return;
    }
    let before = Pair(a.0 - 1).second();
    if b.0 == pairs {
        spread(index, before, start, after);
    } else {
        let half = middle(a, b);
        spread(index, before, start, half);
        spread(index, after, half, after);
    }
}

// replace puts the replacement of every bad pair's frames into the index octets, seven a frame, in which the good pairs' frames stand.
// It asks for the frames of all pairs and for one good pair: a reading in which every pair is bad is refused before.
pub fn replace(notes: &[u8], index: &mut [u8])
    requires { (pairs_octets (length notes.now) ≤ length index.old) × Good notes.now }
    ensures { index.new ≡ over index.old 0 (pairs_octets (length notes.now)) (replaced notes.now index.old) }
{
    // No `for`: a run of bad pairs is passed in one step.
    let mut k = 0;
    while k < notes.len() {
        if notes[k] == GOOD {
            k += 1;
        } else {
            let b = run_end(notes, Pair(k));
            fill_run(index, Pair(k), b, notes.len());
            k = b.0;
        }
    }
}

// speech_of gives the number of frames up to the last nonzero one of m multiframes, the last alone being looked at.
// It asks for the index octets of at least one multiframe and of no more than an utterance has. m stands beside the buffer, here and below:
// both are public, and a caller may lend more octets than m multiframes have.
pub fn speech_of(index: &[u8], m: usize) -> usize
    requires { (1 ≤ m) × (m ≤ most_multiframes) × (index_octets * m ≤ length index.now) }
    ensures { result ≡ speech_of m index.now }
{
    let first = Multiframe(m - 1).first_frame();
    let start = first.0;
    for n in (0..MultiframeLayout::FRAMES).rev() {
        if !frames::is_zero(index, Frame(start + n)) {
            return start + n + 1;
        }
    }
    start
}

// end_of gives 1 if the last frame of m multiframes is zero, else 0. It asks what speech_of asks.
pub fn end_of(index: &[u8], m: usize) -> u8
    requires { (1 ≤ m) × (m ≤ most_multiframes) × (index_octets * m ≤ length index.now) }
    ensures { result ≡ end_of m index.now }
{
    u8::from(frames::is_zero(index, Frame(MultiframeLayout::FRAMES * m - 1)))
}
