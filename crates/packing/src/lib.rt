// Frames and pair packets of a feature stream, made by words: a frame is 44 bits of a word, a packet a word of 64 bits and 28 more.
#![tactic(auto)]

ghost use Rattle.std.specs.Prelude.{◌≡◌, ◌++◌, ◌+◌, ◌%◌, ◌^◌, ◌≤◌, ◌<◌, length};
ghost use Rattle.layout.specs.Layout.{widths, frame_indices, frame_bits};
ghost use Rattle.bits.specs.Bits.{field, value};
ghost use Rattle.crc.specs.Crc.{crc, code};
ghost use Rattle.packet.specs.Packet.{rest_bits, half_bits, frame, frame_at, packet_of};

use crc::Crc;
use layout::{Frame, FrameLayout, PacketLayout, Pair};

// WORD is the bits of a word.
pub const WORD: usize = 64;

// The bits of a frame's whole octets, and the bits behind them.
const WHOLE_BITS: usize = FrameLayout::BITS / 8 * 8;

const LEFT_BITS: usize = FrameLayout::BITS - WHOLE_BITS;

// The index octets of an utterance, seven a frame: whole frames (refusal 2 of the writer).
#[derive(Clone, Copy)]
pub struct Frames<'a> {
    pub octets: &'a [u8],
    pub ghost whole: { length octets.now % frame_indices ≡ 0 },
}

// A packet behind n leading bits, as two numbers: the first 64 bits, and the last 28 + n.
#[derive(Clone, Copy)]
pub struct Packed {
    pub low: u64,
    pub high: u64,
}

impl Frames<'_> {
    // word gives the bits of frame k as a word; past the end of the octets a frame is zeros. It asks for a frame number whose octets can be counted.
    pub fn word(self, k: Frame) -> u64
        requires { k.0 < 2 ^ 21 }
        ensures { result ≡ value (frame widths (frame_at self.entry.octets.now k.0)) }
    {
        let from = FrameLayout::INDICES * k.0;
        if self.octets.len() <= from {
            return 0;
        }
        let mut x: u64 = 0;
        for i in 0..FrameLayout::NARROW {
            x |= (u64::from(self.octets[from + i]) & packet::NARROW_MASK)
                << (FrameLayout::NARROW_BITS * i);
        }
        x | (u64::from(self.octets[from + FrameLayout::NARROW]) << packet::LAST)
    }

    // pack gives the packet of pair q behind the n bits lead. It asks for a lead that fits n bits, at most the half octet in which an odd
    // packet begins.
    pub fn pack(self, q: Pair, lead: u64, n: usize) -> Packed
        requires q_in_bounds { q.0 < 2 ^ 20 }
        requires n_le_half_bits { (n ≤ half_bits) × (lead < 2 ^ n) }
        ensures bits { field 64 result.low ++ field (rest_bits + n) result.high ≡ field n lead ++ packet_of self.entry.octets.now q.0 }
        ensures fits { (result.low < 2 ^ 64) × (result.high < 2 ^ (rest_bits + n)) }
    {
        let a = self.word(q.first());
        let b = self.word(q.second());
        let c = crc_of(a, b);
        Packed {
            low: lead | (a << n) | (b << (FrameLayout::BITS + n)),
            high: (b >> (WORD - FrameLayout::BITS - n))
                | (c << (PacketLayout::DATA_BITS - WORD + n)),
        }
    }
}

// crc_of gives the CRC, as the field that is sent, of two frames.
fn crc_of(a: u64, b: u64) -> u64
    requires { a < 2 ^ frame_bits }
    ensures { result ≡ code (crc (field frame_bits a ++ field frame_bits b)) }
{
    let first = Crc::new().octets(a, packet::WHOLE);
    let both = first.octets((a >> WHOLE_BITS) | (b << LEFT_BITS), packet::WITH_CRC);
    u64::from(both.0)
}
