// The sizes that belong to the layout of a frame, a pair packet and a multiframe, written here once, and the three counters that the
// standard keeps apart. A second layout (the extended front end) gets types of its own beside these. The contract of `all_sizes` holds the sizes
// to the definitions', and proofs/Constants.antt says it of the constants themselves.
#![tactic(auto)]

ghost use Rattle.std.specs.Prelude.{◌≡◌, ◌^◌, ◌<◌};
ghost use Rattle.layout.specs.Layout.{frame_indices, frame_bits, crc_bits, data_bits, packet_bits, multiframe_pairs, multiframe_frames, sync_octets, sync_first, sync_second, sync_word, inverse_first, inverse_second, header_octets, stream_octets, multiframe_octets, most_multiframes, most_frames, index_octets, report_octets, codebook_numbers, threshold_numbers, first_frame, second_frame, multiframe_of, first_pair, first_frame_of, packet_start};

// Six indices of 6 bits, then one of 8.
#[derive(Clone, Copy)]
pub struct FrameLayout;

impl FrameLayout {
    pub const NARROW: usize = 6;

    pub const NARROW_BITS: usize = 6;

    pub const LAST_BITS: usize = 8;

    pub const INDICES: usize = Self::NARROW + 1;

    pub const BITS: usize = Self::NARROW * Self::NARROW_BITS + Self::LAST_BITS;
}

// Two frames and their CRC.
#[derive(Clone, Copy)]
pub struct PacketLayout;

impl PacketLayout {
    pub const FRAMES: usize = 2;

    pub const CRC_BITS: usize = 4;

    pub const DATA_BITS: usize = Self::FRAMES * FrameLayout::BITS;

    pub const BITS: usize = Self::DATA_BITS + Self::CRC_BITS;
}

// Sync, header and twelve packets.
#[derive(Clone, Copy)]
pub struct MultiframeLayout;

impl MultiframeLayout {
    pub const PAIRS: usize = 12;

    pub const FRAMES: usize = PacketLayout::FRAMES * Self::PAIRS;

    pub const SYNC: usize = 2;

    // The sync in sending order, and its inverse.
    pub const SYNC_FIRST: u8 = 0x87;

    pub const SYNC_SECOND: u8 = 0xB2;

    pub const INVERSE_FIRST: u8 = 0x78;

    pub const INVERSE_SECOND: u8 = 0x4D;

    // The sync's sixteen bits as a number, the first sent lowest.
    pub const SYNC_WORD: u64 = 256 * (Self::SYNC_SECOND as u64) + (Self::SYNC_FIRST as u64);

    pub const HEADER: usize = 4;

    pub const STREAM: usize = PacketLayout::BITS * Self::PAIRS / 8;

    pub const OCTETS: usize = Self::SYNC + Self::HEADER + Self::STREAM;
}

// At most 255 multiframes, of which the last keeps a frame of padding.
#[derive(Clone, Copy)]
pub struct UtteranceLayout;

impl UtteranceLayout {
    pub const MULTIFRAMES: usize = 255;

    pub const FRAMES: usize = MultiframeLayout::FRAMES * Self::MULTIFRAMES - 1;
}

// What a reading lends: index and report octets for each multiframe, and the quantiser's tables.
#[derive(Clone, Copy)]
pub struct ReadingLayout;

impl ReadingLayout {
    pub const INDEX: usize = FrameLayout::INDICES * MultiframeLayout::FRAMES;

    pub const REPORT: usize = 1 + MultiframeLayout::PAIRS;

    pub const CODEBOOK: usize = 1280;

    pub const THRESHOLDS: usize = 2 * FrameLayout::INDICES;
}

// The two octets of a sync, in sending order.
#[derive(Clone, Copy)]
pub struct SyncOctets {
    pub first: u8,
    pub second: u8,
}

// The constants above, handed out so that a contract can hold them to the definitions' sizes.
#[derive(Clone, Copy)]
pub struct Sizes {
    pub indices: usize,
    pub frame: usize,
    pub crc: usize,
    pub data: usize,
    pub packet: usize,
    pub pairs: usize,
    pub frames: usize,
    pub sync: usize,
    pub opening: SyncOctets,
    pub inverse: SyncOctets,
    pub word: u64,
    pub header: usize,
    pub stream: usize,
    pub multiframe: usize,
    pub multiframes: usize,
    pub speech: usize,
    pub index: usize,
    pub report: usize,
    pub codebook: usize,
    pub thresholds: usize,
}

pub fn all_sizes() -> Sizes
    ensures frame { (result.indices ≡ frame_indices) × (result.frame ≡ frame_bits) }
    ensures packet { (result.crc ≡ crc_bits) × (result.data ≡ data_bits) × (result.packet ≡ packet_bits) }
    ensures multiframe { (result.pairs ≡ multiframe_pairs) × (result.frames ≡ multiframe_frames) × (result.header ≡ header_octets)
        × (result.stream ≡ stream_octets) × (result.multiframe ≡ multiframe_octets) }
    ensures sync { (result.sync ≡ sync_octets) × (result.opening.first ≡ sync_first)
        × (result.opening.second ≡ sync_second) × (result.word ≡ sync_word) }
    ensures inverse { (result.inverse.first ≡ inverse_first) × (result.inverse.second ≡ inverse_second) }
    ensures utterance { (result.multiframes ≡ most_multiframes) × (result.speech ≡ most_frames) }
    ensures lent { (result.index ≡ index_octets) × (result.report ≡ report_octets)
        × (result.codebook ≡ codebook_numbers) × (result.thresholds ≡ threshold_numbers) }
{
    Sizes {
        indices: FrameLayout::INDICES,
        frame: FrameLayout::BITS,
        crc: PacketLayout::CRC_BITS,
        data: PacketLayout::DATA_BITS,
        packet: PacketLayout::BITS,
        pairs: MultiframeLayout::PAIRS,
        frames: MultiframeLayout::FRAMES,
        sync: MultiframeLayout::SYNC,
        opening: SyncOctets {
            first: MultiframeLayout::SYNC_FIRST,
            second: MultiframeLayout::SYNC_SECOND,
        },
        inverse: SyncOctets {
            first: MultiframeLayout::INVERSE_FIRST,
            second: MultiframeLayout::INVERSE_SECOND,
        },
        word: MultiframeLayout::SYNC_WORD,
        header: MultiframeLayout::HEADER,
        stream: MultiframeLayout::STREAM,
        multiframe: MultiframeLayout::OCTETS,
        multiframes: UtteranceLayout::MULTIFRAMES,
        speech: UtteranceLayout::FRAMES,
        index: ReadingLayout::INDEX,
        report: ReadingLayout::REPORT,
        codebook: ReadingLayout::CODEBOOK,
        thresholds: ReadingLayout::THRESHOLDS,
    }
}

// The three counters, each from 0. None stands in for another: they are turned into each other by the conversions below alone. One generic
// counter over a marker would be no shorter, since each has other conversions, and its errors would not name the counter.
#[derive(Clone, Copy)]
pub struct Frame(pub usize);

#[derive(Clone, Copy)]
pub struct Pair(pub usize);

#[derive(Clone, Copy)]
pub struct Multiframe(pub usize);

impl Pair {
    // Of any pair whose frames' numbers fit.
    pub fn first(self) -> Frame
        requires { second_frame self.0 < 2 ^ 64 }
        ensures { result.0 ≡ first_frame self.0 }
    {
        Frame(PacketLayout::FRAMES * self.0)
    }

    pub fn second(self) -> Frame
        requires { second_frame self.0 < 2 ^ 64 }
        ensures { result.0 ≡ second_frame self.0 }
    {
        Frame(PacketLayout::FRAMES * self.0 + 1)
    }

    pub fn multiframe(self) -> Multiframe
        ensures { result.0 ≡ multiframe_of self.0 }
    {
        Multiframe(self.0 / MultiframeLayout::PAIRS)
    }

    // The stream bit at which its packet starts.
    pub fn start(self) -> usize
        ensures { result ≡ packet_start self.0 }
    {
        PacketLayout::BITS * (self.0 % MultiframeLayout::PAIRS)
    }
}

impl Multiframe {
    pub fn first_pair(self) -> Pair
        requires { first_pair self.0 < 2 ^ 64 }
        ensures { result.0 ≡ first_pair self.0 }
    {
        Pair(MultiframeLayout::PAIRS * self.0)
    }

    pub fn first_frame(self) -> Frame
        requires { self.0 < 65536 }
        ensures { result.0 ≡ first_frame_of self.0 }
    {
        Frame(MultiframeLayout::FRAMES * self.0)
    }
}
