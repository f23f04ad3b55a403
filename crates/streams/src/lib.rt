// The feature stream of a multiframe, written by words: two packets are 23 whole octets.
#![tactic(auto)]

ghost use Rattle.std.specs.Prelude.{◌≡◌, ◌+◌, ◌^◌, ◌≤◌, ◌<◌, length};
ghost use Rattle.lists.specs.Parts.{over};
ghost use Rattle.layout.specs.Layout.{multiframe_pairs, stream_octets};
ghost use Rattle.bits.specs.Bits.{octets};
ghost use Rattle.packet.specs.Packet.{two_packets, stream};

use layout::{MultiframeLayout, PacketLayout, Pair};
use packing::Frames;

// The packet's bits that are left when a word is full.
const REST: usize = PacketLayout::BITS - packing::WORD;

// Octets of two packets, and of a word.
const TWO: usize = 2 * PacketLayout::BITS / 8;

const FULL: usize = packing::WORD / 8;

// Of two packets the second begins in the middle of this octet, behind these bits of the first.
const ODD: usize = PacketLayout::BITS / 8;

const HALF: usize = PacketLayout::BITS % 8;

// Octets of what is left of a packet when a word is full, with half an octet that is not its own.
const TAIL: usize = (REST + HALF) / 8;

// put_two stores the packets of pairs q and q + 1 from octet at on, and reads nothing back. The second is packed behind the bits of the first
// that share its octet, so that each store is a word or half of one as it stands: of two words joined in a store the compiler makes octets.
fn put_two(frames: Frames, q: Pair, out: &mut [u8], at: usize)
    requires q_in_bounds { q.0 + 1 < 2 ^ 20 }
    requires two_packets_in_bounds { at + two_packets ≤ length out.old }
    ensures { out.new ≡ over out.old at two_packets (octets two_packets (stream frames.entry.octets.now q.0 2)) }
{
    let a = frames.pack(q, 0, 0);
    let b = frames.pack(Pair(q.0 + 1), a.high >> (REST - HALF), HALF);
    bits::store(out, at, a.low, FULL);
    bits::store(out, at + FULL, a.high, TAIL);
    bits::store(out, at + ODD, b.low, FULL);
    bits::store(out, at + ODD + FULL, b.high, TAIL);
}

// put_stream stores a multiframe's stream, the packets of twelve pairs from pair q on, from octet at on; every other octet stays,
// which one clause says of the whole buffer. It asks for room.
pub fn put_stream(frames: Frames, q: Pair, out: &mut [u8], at: usize)
    requires q_in_bounds { q.0 + multiframe_pairs < 2 ^ 20 }
    requires stream_octets_in_bounds { at + stream_octets ≤ length out.old }
    ensures { out.new ≡ over out.old at stream_octets (octets stream_octets (stream frames.entry.octets.now q.0 multiframe_pairs)) }
{
    for g in 0..MultiframeLayout::PAIRS / 2 {
        put_two(frames, Pair(q.0 + 2 * g), out, at + TWO * g);
    }
}
