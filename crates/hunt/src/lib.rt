// The hunt for a multiframe at any bit: from a given bit on the smallest place at which enough bits of the sync match and the header that
// follows is readable (02, C-13).
#![tactic(auto)]

ghost use Rattle.std.specs.Prelude.{◌≡◌, ℕ, ◌+◌, ◌*◌, ◌/◌, ◌%◌, ◌^◌, ◌≤◌, ◌<◌, true, length, SomeIff};
ghost use Rattle.bits.specs.Bits.{field, bits};
ghost use Rattle.header.specs.Reading.{reading};
ghost use Rattle.hunt.specs.Hunt.{sync_bits, header_bits, sync, in_range, matches, readable, head_passes, at_once, fewest_off, all_far, searched, places_left, hunted_from, hunted};

use layout::MultiframeLayout;
use std::marker::Model;

// The sync's sixteen bits as a number, first sent least significant, and how many they are.
const SYNC: u32 = MultiframeLayout::SYNC_WORD as u32;

const SYNC_BITS: usize = 8 * MultiframeLayout::SYNC;

const BITS: usize = 8 * MultiframeLayout::OCTETS;

// How few matching bits a caller may ask for; the most are all of them.
const FEWEST: usize = 12;

// The number of bits has to fit 64 bits: octets beyond these are not searched.
const MOST: usize = 0x1fffffffffffffff;

// How many bits of the sync have to match at a place, at least: no more than there are. A contract sees the number.
#[derive(Clone, Copy)]
pub struct Matching {
    bits: usize,
}

impl Model for Matching {
    ghost Value = { ℕ };

    ghost view = { λ m. m.bits };

    ghost invariant = { λ m. m.bits ≤ sync_bits };

    ghost inverse = { λ bits. record { bits = bits } };
}

impl Matching {
    // new takes a number that the caller knows to be no more than the bits of the sync; asked takes any, and tests it.
    pub fn new(bits: usize) -> Matching
        requires { bits ≤ sync_bits }
        ensures { result ≡ bits }
    {
        Matching { bits }
    }

    // asked gives the number that is asked for if it may be: 12 to 16, as in_range tells.
    #[tactic(auto, unfolding(crate::specs::Hunt::in_range))]
    pub fn asked(least: usize) -> Option<Matching>
        ensures { SomeIff result (in_range least ≡ true) least }
    {
        if in_range(least) {
            Some(Matching::new(least))
        } else {
            None
        }
    }
}

// The place found and how many places were tested, it among them.
#[derive(Clone, Copy)]
pub struct Found {
    pub place: usize,
    pub tested: usize,
}

// Whether a header is readable.
fn is_readable(word: u32) -> bool
    ensures { result ≡ readable (reading word) }
{
    header::read(word).is_some()
}

// How many of the first sixteen bits do not match the sync: the rest of the sixteen do.
fn mismatches(head: u64) -> u32
    ensures { matches (field sync_bits (head % 2 ^ sync_bits)) sync + result ≡ sync_bits }
{
    u32::count_ones(((head & 0xffff) as u32) ^ SYNC)
}

// The test of a place, of the bits that stand there: sixteen of a sync and then 32 of a header.
fn passes(head: u64, least: Matching) -> bool
    ensures { result ≡ head_passes least (head % 2 ^ sync_bits) (head / 2 ^ sync_bits % 2 ^ header_bits) }
{
    least.bits + mismatches(head) as usize <= SYNC_BITS
        && is_readable(((head >> 16) & 0xffffffff) as u32)
}

// How many places are looked at together.
const AT_ONCE: usize = 8;

// The fewest bits that do not match the sync at any of eight places, the first that of these bits and each next one bit further. There is no
// branch between them: most places are far from a sync, and to look at eight together costs less than to test each.
fn fewest_mismatches(head: u64) -> u32
    ensures { result ≡ fewest_off at_once head }
{
    let mut fewest = SYNC_BITS as u32;
    for k in 0..AT_ONCE {
        fewest = fewest.min(mismatches(head >> k));
    }
    fewest
}

// Whether eight places or more are left, and at none of the first eight enough bits of the sync match: then none has to be tested by itself.
fn are_far(head: u64, least: Matching, left: usize) -> bool
    ensures { result ≡ all_far least left head }
{
    AT_ONCE <= left && SYNC_BITS < least.bits + fewest_mismatches(head) as usize
}

// searched_bits gives how many bits are searched: their number has to fit 64 bits.
pub fn searched_bits(octets: &[u8]) -> usize
    ensures { result ≡ searched (bits octets.now) }
{
    8 * octets.len().min(MOST)
}

// How many places have a whole multiframe's bits left.
fn places(octets: &[u8]) -> usize
    ensures { result ≡ places_left (bits octets.now) 0 }
{
    (searched_bits(octets) + 1).saturating_sub(BITS)
}

// seek is the hunt itself.
pub fn seek(octets: &[u8], from: usize, least: Matching) -> Result<Found, refusals::Hunt>
    ensures { result ≡ hunted_from (bits octets.now) from least }
{
    let end = places(octets);
    let mut t = from;
    // A while, since no range strides by eight here and by one there.
    while t < end {
        let head = bits::word(octets, t / 8) >> (t % 8);
        if are_far(head, least, end - t) {
            t += AT_ONCE;
        } else if passes(head, least) {
            return Ok(Found {
                place: t,
                tested: t - from + 1,
            });
        } else {
            t += 1;
        }
    }
    Err(refusals::Hunt::Nowhere {
        from,
        tested: t - from,
    })
}

// in_range tells whether so many matching bits may be asked for.
#[tactic(auto, unfolding(crate::specs::Hunt::in_range))]
pub fn in_range(least: usize) -> bool
    ensures { result ≡ in_range least }
{
    (FEWEST..=SYNC_BITS).contains(&least)
}

// hunt gives the smallest place from bit from on with a whole multiframe's bits left, where at least least bits of the sync match and the
// header behind it is readable, and how many places were tested. Nothing is asked of the caller.
#[tactic(auto, unfolding(crate::specs::Hunt::hunted))]
pub fn hunt(octets: &[u8], from: usize, least: usize) -> Result<Found, refusals::Hunt>
    ensures { result ≡ hunted octets.now from least }
{
    match Matching::asked(least) {
        Some(matching) => seek(octets, from, matching),
        None => Err(refusals::Hunt::MatchRange { least }),
    }
}
