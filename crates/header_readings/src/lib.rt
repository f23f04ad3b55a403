// The headers of an utterance: every one read once, and its reading kept as a number.
#![tactic(auto)]

ghost use Rattle.std.specs.Prelude.{◌≡◌, ◌+◌, ◌≤◌, length};
ghost use Rattle.lists.specs.Parts.{over};
ghost use Rattle.layout.specs.Layout.{multiframe_octets};
ghost use Rattle.carrier.specs.Carrier.{header_word};
ghost use Rattle.header.specs.Reading.{reading};
ghost use Rattle.header_readings.specs.Stored.{packed, opened, Mended, pack_all};

use carrier::Multiframes;
use header::Decoded;
use layout::Multiframe;

// In an array a reading is one number, the message and above it the flips, of which a lost header has three. An array of the readings
// themselves, of twelve octets each, would be cleared for every call: clearing these, of four, is half the time of settling two clean headers already.
const ABOVE: u32 = 0x10000;

const LOST_FLIPS: u32 = 3;

fn pack_reading(h: Option<Decoded>) -> u32
    requires { Mended h }
    ensures { result ≡ packed h }
{
    let Some(d) = h else {
        return LOST_FLIPS * ABOVE;
    };
    d.flips * ABOVE + u32::from(d.message)
}

// open_reading gives the reading that a number stands for.
pub fn open_reading(x: u32) -> Option<Decoded>
    ensures { result ≡ opened x }
{
    let flips = x / ABOVE;
    if flips == LOST_FLIPS {
        return None;
    }
    Some(Decoded {
        message: (x % ABOVE) as u16,
        flips,
    })
}

// The reading of a header's word, as one number.
fn read_word(word: u32) -> u32
    ensures { result ≡ packed (reading word) }
{
    pack_reading(header::read(word))
}

// reading_at gives the reading of the header of the multiframe at a place, as one number. It asks for a whole multiframe there.
pub fn reading_at(octets: &[u8], place: usize) -> u32
    requires { place + multiframe_octets ≤ length octets.now }
    ensures { result ≡ packed (reading (header_word octets.now place)) }
{
    read_word(carrier::header_word(octets, place))
}

// read_headers puts the reading of every header to the front of headers; the rest of headers stays. It asks for room.
pub fn read_headers(multiframes: &Multiframes<'_>, headers: &mut [u32])
    requires { length multiframes.now.places ≤ length headers.old }
    ensures { headers.new ≡ over headers.old 0 (length multiframes.now.places)
        (pack_all multiframes.now.octets multiframes.now.places (length multiframes.now.places)) }
{
    for k in 0..multiframes.count() {
        headers[k] = read_word(multiframes.header_word(Multiframe(k)));
    }
}
