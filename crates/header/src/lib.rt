// The header code of ES 201 108: the codeword of sixteen message bits, and the reading of a received header, which mends at most two flips.
// Whoever stands above relies on the promises and laws alone: the definitions are shut.
#![tactic(auto)]

ghost use Rattle.std.specs.Prelude.{◌≡◌, ◌≢◌, ℕ, ◌<◌, ◌^◌, get_or};
ghost use Rattle.header_code.specs.Code.{parity, codeword, syndrome};
ghost use Rattle.header.specs.Reading.{reading};
ghost use Rattle.header.specs.Reading.Search.{Found};

// What is known of a header that is read: the codeword's message, and the number of flipped bits.
#[derive(Clone, Copy)]
pub struct Decoded {
    pub message: u16,
    pub flips: u32,
}

// The sixteen words of matrix 6.2: P1 to P15 of each message bit alone, P1 the least significant. It is the only table.
const WORDS: [u32; 16] = [
    20737, 29443, 14087, 28174, 3357, 6714, 13428, 26856, 209, 418, 836, 1672, 3344, 6688, 13376,
    26752,
];

// In a syndrome, behind P1 to P15: the number of ones is odd.
const ODD: u32 = 0x8000;

// P1 to P15 of a message, the remainder of the message times X^15 by g: how often g goes into it, and that many times g, less what stands at
// X^15 and above. Shifts, with no table and no branch: most headers are clean, and are read by this and one count of ones.
fn parity_of(message: u32) -> u32
    requires { message < 2 ^ 16 }
    ensures { result ≡ parity message }
{
    let quotient = message ^ (message >> 1) ^ (message >> 2) ^ (message >> 4) ^ (message >> 8);
    (quotient ^ (quotient << 8) ^ (quotient << 12) ^ (quotient << 14)) & 0x7fff
}

// The codeword of a message: the message, P1 to P15, and P16, which makes the number of ones even.
pub fn encode(message: u16) -> u32
    ensures { result ≡ codeword message }
{
    let m = message as u32;
    let front = (parity_of(m) << 16) | m;
    ((u32::count_ones(front) & 1) << 31) | front
}

// What is wrong with a word: nothing exactly if it is a codeword.
fn syndrome_of(word: u32) -> u32
    ensures { result ≡ syndrome word }
{
    let off = parity_of(word & 0xffff) ^ ((word >> 16) & 0x7fff);
    ((u32::count_ones(word) & 1) << 15) | off
}

// The syndrome of each single flip, from the sixteen words.
fn columns() -> [u32; 32]
    ensures { (k : ℕ) → k < 32 → get_or result k 0 ≡ syndrome (2 ^ k) }
{
    let mut columns = [0u32; 32];
    for (i, word) in WORDS.iter().enumerate() {
        columns[i] = *word | ODD;
        columns[16 + i] = bit(i) | ODD;
    }
    columns
}

fn bit(place: usize) -> u32
    requires { place < 32 }
    ensures { result ≡ 2 ^ place }
{
    1u32 << place
}

// The codeword that differs from the word in at most two bits, with their number, or none, lost, exactly if no codeword does. No flip is tried
// first.
pub fn read(word: u32) -> Option<Decoded>
    ensures { result ≡ reading word }
{
    let wrong = syndrome_of(word);
    if wrong != 0 {
        return read_damaged(word, wrong);
    }
    Some(Decoded {
        message: (word & 0xffff) as u16,
        flips: 0,
    })
}

// The bits, at most two, whose flips have this syndrome. Tried are each place from 0 up, then two places, the lower first and then the higher;
// the first pattern that fits ends the search.
fn pattern_of(wrong: u32) -> Option<u32>
    ensures { (w : ℕ) → wrong ≡ syndrome w → Found w result }
{
    let columns = columns();
    if let Some(i) = columns.iter().position(|column| *column == wrong) {
        return Some(bit(i));
    }
    for (i, column) in columns.iter().enumerate() {
        let left = wrong ^ *column;
        // By the place: position over the columns behind i takes a third longer (measured, two flips and lost).
        for j in i + 1..32 {
            if columns[j] == left {
                return Some(bit(i) ^ bit(j));
            }
        }
    }
    None
}

// The reading of a word that is no codeword. It stands apart so that a clean header, the common case, is read without the search.
fn read_damaged(word: u32, wrong: u32) -> Option<Decoded>
    requires { (wrong ≡ syndrome word) × (wrong ≢ 0) }
    ensures { result ≡ reading word }
{
    let codeword = word ^ pattern_of(wrong)?;
    Some(Decoded {
        message: (codeword & 0xffff) as u16,
        flips: u32::count_ones(word ^ codeword),
    })
}
