// Whether a pair of frames is consistent: how far the quantised values of its two frames are apart, against the thresholds.
#![tactic(auto)]

ghost use Rattle.std.specs.Prelude.{◌≡◌, ◌<◌, ◌≤◌, length};
ghost use Rattle.layout.specs.Layout.{frame_indices, codebook_numbers};
ghost use Rattle.tables.specs.Lending.{lent_tables};
ghost use Rattle.consistency.specs.Consistency.{exceeding, entry_place, element_exceeds, flagged, inconsistent, InRange};

use layout::FrameLayout;
use tables::Tables;

// Each codebook has room for 64 entries of two numbers; the seventh comes last and goes on.
const CODEBOOK_ROOM: usize = 128;

const ELEMENTS: usize = 2;

// An inconsistent pair has at least so many flagged index pairs.
const FLAGS: usize = 2;

// exceeds says whether the two numbers are further apart than the threshold, whichever is the larger. How far they are may need 32 bits.
pub fn exceeds(threshold: i32, first: i32, second: i32) -> bool
    ensures { result ≡ exceeding threshold first second }
{
    i64::from(threshold) < i64::from(second.abs_diff(first))
}

// The same of an element of index pair c, entry i and then entry j.
fn element_exceeds(tables: &Tables<'_>, c: usize, i: usize, j: usize, element: usize) -> bool
    requires counted { (c < frame_indices) × (element < 2) }
    requires inside { (entry_place c i 1 < codebook_numbers) × (entry_place c j 1 < codebook_numbers) }
    ensures { result ≡ element_exceeds (lent_tables tables.now) c i j element }
{
    let threshold = tables.threshold(ELEMENTS * c + element);
    let first = tables.number(CODEBOOK_ROOM * c + ELEMENTS * i + element);
    let second = tables.number(CODEBOOK_ROOM * c + ELEMENTS * j + element);
    exceeds(threshold, first, second)
}

// Whether index pair c, entry i and then entry j, is flagged: either of its elements moves too far, up or down.
// It asks that both entries lie in the codebook, which a frame's indices do.
#[tactic(auto, unfolding(crate::specs::Consistency::flagged))]
fn is_flagged(tables: &Tables<'_>, c: usize, i: usize, j: usize) -> bool
    requires counted { c < frame_indices }
    requires inside { (entry_place c i 1 < codebook_numbers) × (entry_place c j 1 < codebook_numbers) }
    ensures { result ≡ flagged (lent_tables tables.now) c i j }
{
    element_exceeds(tables, c, i, j, 0) || element_exceeds(tables, c, i, j, 1)
}

// is_inconsistent says whether two frames are inconsistent. It asks for frames as they come out of packets, the first six indices below 64.
pub fn is_inconsistent(tables: &Tables<'_>, first: &[u8], second: &[u8]) -> bool
    requires whole { (frame_indices ≤ length first.now) × (frame_indices ≤ length second.now) }
    requires in_range { InRange first.now × InRange second.now }
    ensures { result ≡ inconsistent (lent_tables tables.now) first.now second.now }
{
    let mut flags = 0;
    // A for, and no filter and count: by those the compiler walks the seven with tests in between, and judging damaged pairs takes twice the time.
    for c in 0..FrameLayout::INDICES {
        if is_flagged(tables, c, usize::from(first[c]), usize::from(second[c])) {
            flags += 1;
        }
    }
    FLAGS <= flags
}
