// Pair packets of a feature stream, read by words: a frame is 44 bits of a word, a packet a word of 64 bits and 28 more.
#![tactic(auto)]

ghost use Rattle.std.specs.Prelude.{◌≡◌, ◌+◌, ◌*◌, ◌≤◌, length};
ghost use Rattle.lists.specs.Parts.{part, over};
ghost use Rattle.layout.specs.Layout.{widths, frame_indices, frame_bits, pair_indices, data_bits, packet_bits, packet_start};
ghost use Rattle.bits.specs.Bits.{bits, field, value};
ghost use Rattle.crc.specs.Crc.{right};
ghost use Rattle.packet.specs.Packet.{second_bits, indices, apart};

use crc::Crc;
use layout::{FrameLayout, PacketLayout, Pair};

// WHOLE is a frame's whole octets, WITH_CRC its octets with the CRC's four bits more.
pub const WHOLE: u32 = (FrameLayout::BITS / 8) as u32;

pub const WITH_CRC: u32 = WHOLE + 1;

// From a packet's first octet to the word of its second frame, and from that word's start to the frame.
const AHEAD: usize = 4;

const INTO: usize = FrameLayout::BITS - 8 * AHEAD;

// LAST is the bit of a frame at which its last index stands.
pub const LAST: usize = FrameLayout::NARROW * FrameLayout::NARROW_BITS;

// NARROW_MASK is the mask of an index of six bits.
pub const NARROW_MASK: u64 = (1 << FrameLayout::NARROW_BITS) - 1;

// Masks of an index of eight bits, of a frame, and of a frame with the CRC behind it.
const LAST_MASK: u64 = (1 << FrameLayout::LAST_BITS) - 1;

const FRAME_MASK: u64 = (1 << FrameLayout::BITS) - 1;

const SECOND_MASK: u64 = (1 << (FrameLayout::BITS + PacketLayout::CRC_BITS)) - 1;

// words gives the bits of the two frames of pair p's packet in a stream, the CRC behind those of the second. The second word starts four
// octets on and never passes the packet's last octet. It asks, as those below, that the packet lies inside; no struct says so, since each
// caller has a stream and a number of its own and would make it for one call.
fn words(s: &[u8], p: Pair) -> (u64, u64)
    requires { packet_start p.0 + packet_bits ≤ 8 * length s.now }
    ensures first { result.0 ≡ value (part (packet_start p.0) frame_bits (bits s.now)) }
    ensures second { result.1 ≡ value (part (packet_start p.0 + frame_bits) second_bits (bits s.now)) }
{
    let at = p.start();
    let first = bits::word(s, at / 8) >> (at % 8);
    let second = bits::word(s, at / 8 + AHEAD) >> (INTO + at % 8);
    (first & FRAME_MASK, second & SECOND_MASK)
}

// is_right tells whether the CRC of pair p's packet in a stream is right: the register is 0 after all 92 bits. Four zero bits ahead of
// them leave a zero register alone and make whole octets.
pub fn is_right(s: &[u8], p: Pair) -> bool
    requires { packet_start p.0 + packet_bits ≤ 8 * length s.now }
    ensures { result ≡ right data_bits (part (packet_start p.0) packet_bits (bits s.now)) }
{
    let (a, b) = words(s, p);
    let first = Crc::new().octets(a << PacketLayout::CRC_BITS, WITH_CRC);
    first.octets(b, WITH_CRC).0 == 0
}

// take_frame stores the seven indices of the frame in the low bits of w from octet to on.
fn take_frame(w: u64, idx: &mut [u8], to: usize)
    requires { to + frame_indices ≤ length idx.old }
    ensures { idx.new ≡ over idx.old to frame_indices (indices widths (field frame_bits w)) }
{
    for i in 0..FrameLayout::NARROW {
        idx[to + i] = ((w >> (FrameLayout::NARROW_BITS * i)) & NARROW_MASK) as u8;
    }
    idx[to + FrameLayout::NARROW] = ((w >> LAST) & LAST_MASK) as u8;
}

// take_apart stores the two frames of pair p's packet in a stream as fourteen octets from octet to on; every other octet stays, which one
// clause says of the whole buffer.
pub fn take_apart(s: &[u8], p: Pair, idx: &mut [u8], to: usize)
    requires { (packet_start p.0 + packet_bits ≤ 8 * length s.now) × (to + pair_indices ≤ length idx.old) }
    ensures { idx.new ≡ over idx.old to pair_indices (apart widths (part (packet_start p.0) packet_bits (bits s.now))) }
{
    // Each word is read where it is taken apart: with both read first a stream is taken apart a twentieth slower.
    take_frame(words(s, p).0, idx, to);
    take_frame(words(s, p).1, idx, to + FrameLayout::INDICES);
}
