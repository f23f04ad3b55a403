// The listing of an utterance, made as text in a lent buffer: a line for each multiframe and a total, or the refusal. `listing` in specs/
// says what it is, for every input.
#![tactic(auto)]

ghost use Rattle.std.specs.Prelude.{◌≤◌, length};
ghost use Rattle.text.specs.Text.{Put};
ghost use Rattle.listing.specs.Listing.{most_listing, listing};

use choices::Choices;
use layout::{ReadingLayout, UtteranceLayout};
use text::Text;

// MOST is the most octets of a listing.
pub const MOST: usize = lines::LINE * UtteranceLayout::MULTIFRAMES + last_line::TOTAL;

const INDEX: usize = ReadingLayout::INDEX * UtteranceLayout::MULTIFRAMES;

const REPORT: usize = ReadingLayout::REPORT * UtteranceLayout::MULTIFRAMES;

// put_listing puts the whole listing of octets that were received at the front of text and answers its length. All codebook numbers and
// thresholds are 0, and one header alone settles: a list of one multiframe shows its notes to whoever reads it (02, C-20). It asks for room, MOST
// octets.
pub fn put_listing(octets: &[u8], text: &mut [u8]) -> usize
    requires { most_listing ≤ length text.old }
    ensures { Put (listing octets.now) text.old 0 text.new result }
{
    let codebook = [0i32; ReadingLayout::CODEBOOK];
    let thresholds = [0i32; ReadingLayout::THRESHOLDS];
    let mut index = [0u8; INDEX];
    let mut report = [0u8; REPORT];
    let choices = Choices {
        one_header_settles: true,
    };
    let answer = reader::read(
        octets,
        choices,
        &codebook,
        &thresholds,
        &mut index,
        &mut report,
    );
    let mut listing = Text { room: text, end: 0 };
    match answer {
        Ok(s) => {
            lines::put_lines(&report, s.multiframes, &mut listing);
            last_line::put_total(s, &mut listing);
        }
        Err(r) => last_line::put_refusal(r, &mut listing),
    }
    listing.end
}
