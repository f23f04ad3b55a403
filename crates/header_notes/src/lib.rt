// Header notes: what the report says of each header.
#![tactic(auto)]

ghost use Rattle.std.specs.Prelude.{◌≡◌, ◌<◌, ◌≤◌, length, get_or};
ghost use Rattle.lists.specs.Tests.{when};
ghost use Rattle.header_notes.specs.HeaderNotes.{header_note};
ghost use Rattle.header_readings.specs.Stored.{opened, Mended};

use header::Decoded;
use layout::Multiframe;
use message::Fields;

// The counter of a header counts modulo 16.
const COUNTS: usize = 16;

// What the note of a lost header says, and what the note of a readable one adds: numbers, since notes are octets of the report, whose sums 01
// and dsr.h fix.
const LOST: u8 = 3;

const OUT_OF_STEP: u8 = 4;

const UNLIKE_SETTLED: u8 = 8;

// What a readable header's note adds unless something is as it should be.
fn unless(right: bool, note: u8) -> u8
    ensures value { result ≡ when right 0 note }
    ensures most { result ≤ note }
{
    if right { 0 } else { note }
}

// The note of a reading of multiframe k's header. It asks for a reading as header::read gives it.
fn note_of(h: Option<Decoded>, k: Multiframe, common: u16) -> u8
    requires { Mended h × (k.0 < 65536) }
    ensures { result ≡ header_note common k.0 h }
{
    let Some(d) = h else {
        return LOST;
    };
    let in_step = usize::from(Fields::from(d.message).count) == (k.0 + 1) % COUNTS;
    let as_settled = message::common_of(d.message) == common;
    d.flips as u8 + unless(in_step, OUT_OF_STEP) + unless(as_settled, UNLIKE_SETTLED)
}

// note_at gives the note of multiframe k's header, of the readings in an array, as read_headers puts them there. It asks for that, since they
// are plain numbers there, of which no type says it.
pub fn note_at(headers: &[u32], k: Multiframe, common: u16) -> u8
    requires k_in_bounds { (k.0 < length headers.now) × (k.0 < 65536) }
    requires mended { Mended (opened (get_or headers.now k.0 0)) }
    ensures { result ≡ header_note common k.0 (opened (get_or headers.now k.0 0)) }
{
    note_of(header_readings::open_reading(headers[k.0]), k, common)
}
