// Finding the multiframes (02, C-13): they are found at any bit, one after another, and put together on octets with whole syncs.
#![tactic(auto)]

ghost use Rattle.std.specs.Prelude.{◌≡◌, ◌+◌, ◌*◌, ◌≤◌, ◌<◌, length};
ghost use Rattle.lists.specs.Parts.{over};
ghost use Rattle.layout.specs.Layout.{multiframe_octets, most_multiframes};
ghost use Rattle.bits.specs.Bits.{bits};
ghost use Rattle.hunt.specs.Hunt.{multiframe_bits, searched};
ghost use Rattle.gathering.specs.Gathering.{aligned, gathering, answered, Laid, outside_of};

use hunt::Matching;
use layout::{Multiframe, MultiframeLayout, UtteranceLayout};

// A sync and a multiframe in bits, and what stands behind the sync in octets.
const SYNC_BITS: usize = 8 * MultiframeLayout::SYNC;

const BITS: usize = 8 * MultiframeLayout::OCTETS;

const BEHIND: usize = MultiframeLayout::OCTETS - MultiframeLayout::SYNC;

// How many multiframes were found, to the end of the bits, and how many places were tested.
#[derive(Clone, Copy)]
pub struct Whole {
    pub count: usize,
    pub tested: usize,
}

// A match after as many multiframes as an utterance may have, and its bit.
#[derive(Clone, Copy)]
pub struct TooMany {
    pub place: usize,
}

// The multiframe found at a place goes to the image as its k-th, with a whole sync.
fn put_found(octets: &[u8], place: usize, image: &mut [u8], k: Multiframe)
    requires { (place + multiframe_bits ≤ searched (bits octets.now)) × (k.0 < most_multiframes)
        × (multiframe_octets * most_multiframes ≤ length image.old) }
    ensures { image.new ≡ over image.old (multiframe_octets * k.0) multiframe_octets (aligned octets.now place) }
{
    let at = MultiframeLayout::OCTETS * k.0;
    image[at] = MultiframeLayout::SYNC_FIRST;
    image[at + 1] = MultiframeLayout::SYNC_SECOND;
    bits::copy(
        octets,
        place + SYNC_BITS,
        BEHIND,
        image,
        at + MultiframeLayout::SYNC,
    );
}

// gather finds one multiframe after another and puts them into the image.
pub fn gather(
    octets: &[u8],
    from: usize,
    least: Matching,
    image: &mut [u8],
) -> Result<Whole, TooMany>
    requires { length image.old ≡ multiframe_octets * most_multiframes }
    ensures answer { result ≡ answered (gathering (bits octets.now) least most_multiframes from) }
    ensures image { Laid octets.now (gathering (bits octets.now) least most_multiframes from) image.new }
{
    let mut m = 0;
    let mut at = from;
    let mut tested = 0;
    // No while let: what the last hunt tested counts, too.
    loop {
        match hunt::seek(octets, at, least) {
            Ok(found) => {
                if m == UtteranceLayout::MULTIFRAMES {
                    return Err(TooMany { place: found.place });
                }
                put_found(octets, found.place, image, Multiframe(m));
                m += 1;
                at = found.place + BITS;
                tested += found.tested;
            }
            Err(r) => {
                return Ok(Whole {
                    count: m,
                    tested: tested + r.tested(),
                })
            }
        }
    }
}

// outside_of counts the bits from bit from on that are in none of count multiframes.
pub fn outside_of(octets: &[u8], from: usize, count: usize) -> usize
    requires { (from + multiframe_bits * count ≤ searched (bits octets.now)) × (count ≤ most_multiframes) }
    ensures { result ≡ outside_of (bits octets.now) from count }
{
    hunt::searched_bits(octets) - from - BITS * count
}
