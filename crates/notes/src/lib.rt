// The pairs of received multiframes, walked by multiframe and packet: every CRC tried once, the notes of all pairs, and all frames in order.
#![tactic(auto)]

ghost use Rattle.std.specs.Prelude.{◌≡◌, false, ◌+◌, ◌*◌, ◌≤◌, ◌<◌, length, get_or};
ghost use Rattle.lists.specs.Tests.{when};
ghost use Rattle.lists.specs.Parts.{over};
ghost use Rattle.layout.specs.Layout.{pair_indices, multiframe_pairs, stream_octets, index_octets, most_multiframes};
ghost use Rattle.bits.specs.Bits.{bits};
ghost use Rattle.carrier.specs.Carrier.{stream_packet, received, pair_count};
ghost use Rattle.bad_pairs.specs.BadPairs.{bad};
ghost use Rattle.tables.specs.Lending.{lent_tables};
ghost use Rattle.notes.specs.Notes.{all_frames, crc_notes, pair_inconsistent, pair_notes};

use carrier::Multiframes;
use layout::{FrameLayout, Multiframe, MultiframeLayout, PacketLayout, Pair};
use tables::Tables;

// A pair's frames, in octets.
const FRAMES: usize = PacketLayout::FRAMES * FrameLayout::INDICES;

// note_stream puts the notes of the CRCs of a stream's twelve packets into notes, from pair first on; every other note stays.
pub fn note_stream(stream: &[u8], notes: &mut [u8], first: Pair)
    requires { (stream_octets ≤ length stream.now) × (first.0 + multiframe_pairs ≤ length notes.old) }
    ensures { notes.new ≡ over notes.old first.0 multiframe_pairs (crc_notes (stream_packet (bits stream.now)) multiframe_pairs) }
{
    let from = first.0;
    for p in 0..MultiframeLayout::PAIRS {
        let right = packet::is_right(stream, Pair(p));
        notes[from + p] = bad_pairs::note(false, !right, false, false);
    }
}

// note_crcs puts the note of each pair's CRC into notes: every CRC is tried here, once.
pub fn note_crcs(multiframes: &Multiframes<'_>, notes: &mut [u8])
    requires { length notes.old ≡ pair_count multiframes.now.places }
    ensures { notes.new ≡ crc_notes (received multiframes.now.octets multiframes.now.places) (pair_count multiframes.now.places) }
{
    // take_all_apart walks them too. One function over a closure for what differs is no plainer: its contract would be on what each call
    // leaves in the buffer.
    for k in 0..multiframes.count() {
        let multiframe = Multiframe(k);
        let first = multiframe.first_pair();
        note_stream(multiframes.stream(multiframe), notes, first);
    }
}

// Whether the pair behind pair q failed by its CRC; the last has none behind it.
fn next_failed(notes: &[u8], q: Pair) -> bool
    requires { q.0 < length notes.now }
    ensures { result ≡ bad (get_or notes.now (q.0 + 1) 0) }
{
    let behind = notes.get(q.0 + 1);
    behind.is_some_and(|note| bad_pairs::is_bad(*note))
}

// Whether pair q is inconsistent.
fn is_inconsistent(multiframes: &Multiframes<'_>, tables: &Tables<'_>, q: Pair) -> bool
    requires { q.0 < pair_count multiframes.now.places }
    ensures { result ≡ pair_inconsistent (received multiframes.now.octets multiframes.now.places) (lent_tables tables.now) q.0 }
{
    let stream = multiframes.stream(q.multiframe());
    let mut frames = [0u8; FRAMES];
    packet::take_apart(stream, q, &mut frames, 0);
    consistency::is_inconsistent(
        tables,
        &frames[..FrameLayout::INDICES],
        &frames[FrameLayout::INDICES..],
    )
}

// The same, where it matters; elsewhere no pair is taken apart. A function of its own: its one clause is all that the walk over the pairs needs.
fn is_inconsistent_if(
    asked: bool,
    multiframes: &Multiframes<'_>,
    tables: &Tables<'_>,
    q: Pair,
) -> bool
    requires { q.0 < pair_count multiframes.now.places }
    ensures { result ≡ when asked (pair_inconsistent (received multiframes.now.octets multiframes.now.places) (lent_tables tables.now) q.0) false }
{
    asked && is_inconsistent(multiframes, tables, q)
}

// judge turns the notes of the CRCs into the notes of the pairs. Where no CRC failed they are the same, and no pair is judged. Else every
// pair is, in place, from the first on: a pair's note stands before the next pair is judged, and the CRC's note of the pair behind it still
// does.
pub fn judge(multiframes: &Multiframes<'_>, tables: &Tables<'_>, notes: &mut [u8])
    requires { notes.old ≡ crc_notes (received multiframes.now.octets multiframes.now.places) (pair_count multiframes.now.places) }
    ensures { notes.new ≡ pair_notes (received multiframes.now.octets multiframes.now.places) (pair_count multiframes.now.places) (lent_tables tables.now) }
{
    if bad_pairs::count_bad(notes) == 0 {
        return;
    }
    let mut before = false;
    for q in 0..notes.len() {
        let failed = bad_pairs::is_bad(notes[q]);
        let after = next_failed(notes, Pair(q));
        let asked = bad_pairs::undecided(before, failed, after);
        let inconsistent = is_inconsistent_if(asked, multiframes, tables, Pair(q));
        let note = bad_pairs::note(before, failed, inconsistent, after);
        notes[q] = note;
        before = bad_pairs::is_bad(note);
    }
}

// take_stream_apart puts the frames of a stream's twelve packets into idx, from the place of pair first on; every other octet stays,
// which one clause says of the whole buffer.
pub fn take_stream_apart(stream: &[u8], idx: &mut [u8], first: Pair)
    requires { (stream_octets ≤ length stream.now) × (pair_indices * (first.0 + multiframe_pairs) ≤ length idx.old) }
    ensures { idx.new ≡ over idx.old (pair_indices * first.0) index_octets
        (all_frames (stream_packet (bits stream.now)) multiframe_pairs) }
{
    let from = FRAMES * first.0;
    for q in 0..MultiframeLayout::PAIRS {
        packet::take_apart(stream, Pair(q), idx, from + FRAMES * q);
    }
}

// take_all_apart puts the frames of all pairs in order to the front of idx, seven octets each; the rest of idx stays.
pub fn take_all_apart(multiframes: &Multiframes<'_>, idx: &mut [u8])
    requires few { length multiframes.now.places ≤ most_multiframes }
    requires places_in_bounds { pair_indices * pair_count multiframes.now.places ≤ length idx.old }
    ensures { idx.new ≡ over idx.old 0 (pair_indices * pair_count multiframes.now.places)
        (all_frames (received multiframes.now.octets multiframes.now.places) (pair_count multiframes.now.places)) }
{
    for k in 0..multiframes.count() {
        let multiframe = Multiframe(k);
        let first = multiframe.first_pair();
        take_stream_apart(multiframes.stream(multiframe), idx, first);
    }
}
