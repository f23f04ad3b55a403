// Cutting received octets up into multiframes: where each begins, or the refusal 12, 13 or 15 that cutting meets.
#![tactic(auto)]

ghost use Rattle.std.specs.Prelude.{◌≡◌, length};
ghost use Rattle.layout.specs.Layout.{most_multiframes};
ghost use Rattle.cutting.specs.Cutting.{piece_of, sync_met, cutting, answered, laid};

use layout::{MultiframeLayout, UtteranceLayout};
use refusals::Reading;

// What stands at the front of the octets that are left: one of three that cutting goes on with or ends at, or what 12, 13 or 15 is about.
#[derive(Clone, Copy)]
pub enum Piece {
    End,
    Multiframe,
    Inverse,
    Unknown,
    CutShort,
    TooMany,
}

// piece_of names what the octets begin, after so many multiframes.
#[tactic(auto, unfolding(crate::specs::Cutting::piece_by, crate::specs::Cutting::last_met))]
pub fn piece_of(rest: &[u8], count: usize) -> Piece
    ensures { result ≡ piece_of rest.now count }
{
    match rest {
        [] => Piece::End,
        [MultiframeLayout::SYNC_FIRST] | [MultiframeLayout::INVERSE_FIRST] => Piece::CutShort,
        [
            MultiframeLayout::SYNC_FIRST,
            MultiframeLayout::SYNC_SECOND,
            ..
        ] => sync_met(rest.len(), count),
        [
            MultiframeLayout::INVERSE_FIRST,
            MultiframeLayout::INVERSE_SECOND,
            ..
        ] => Piece::Inverse,
        _ => Piece::Unknown,
    }
}

// A sync with so many octets from it on: one too many even if it is cut.
#[tactic(auto, unfolding(crate::specs::Cutting::sync_met))]
fn sync_met(octets: usize, count: usize) -> Piece
    ensures { result ≡ sync_met octets count }
{
    if count == UtteranceLayout::MULTIFRAMES {
        Piece::TooMany
    } else if octets < MultiframeLayout::OCTETS {
        Piece::CutShort
    } else {
        Piece::Multiframe
    }
}

// cut_into puts the places of the multiframes met to the front of places and answers their number; the rest of places stays.
// It asks for room for as many as an utterance may have: its caller lends an array of its own.
pub fn cut_into(s: &[u8], places: &mut [usize]) -> Result<usize, Reading>
    requires { length places.old ≡ most_multiframes }
    ensures answer { result ≡ answered (cutting s.now) }
    ensures places { places.new ≡ laid 0 (cutting s.now).places places.old }
{
    let mut p = 0;
    let mut m = 0;
    // The crate beginning walks the same pieces and ends early: a method for the three refusals would be longer than the three lines.
    // A loop, since only a piece tells where the next one begins.
    loop {
        match piece_of(&s[p..], m) {
            Piece::Multiframe => {
                places[m] = p;
                p += MultiframeLayout::OCTETS;
                m += 1;
            }
            Piece::Inverse => {
                p += MultiframeLayout::SYNC;
            }
            Piece::End => return Ok(m),
            Piece::Unknown => return Err(Reading::Unknown { place: p }),
            Piece::CutShort => return Err(Reading::CutShort { place: p }),
            Piece::TooMany => return Err(Reading::TooMany { place: p }),
        }
    }
}
