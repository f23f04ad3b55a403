// Which pairs are bad: the notes of the report, from each pair's CRC, its consistency and its neighbours.
#![tactic(auto)]

ghost use Rattle.std.specs.Prelude.{◌≡◌};
ghost use Rattle.bad_pairs.specs.BadPairs.{bad, undecided_by, note_by, bad_pairs};

// The notes of a pair: octets and no enum, since the C interface fixes them and each is on its way into the report or out of it; an enum
// would be turned into its octet, or made of it, at each use.
pub const GOOD: u8 = 0;

pub const CRC_FAILED: u8 = 1;

pub const BAD_OTHERWISE: u8 = 2;

pub fn is_bad(note: u8) -> bool
    ensures { result ≡ bad note }
{
    note != GOOD
}

// undecided says whether the pair's consistency matters at all: its own CRC is right, and the next pair's failed or the pair before it is bad.
#[tactic(auto, unfolding(crate::specs::BadPairs::undecided_by))]
pub fn undecided(before: bool, fails: bool, after: bool) -> bool
    ensures { result ≡ undecided_by before fails after }
{
    !fails && (after || before)
}

// note gives the pair's note, by the pair before it (bad), its own CRC (fails) and consistency (inconsistent), and the next pair's CRC (after).
#[tactic(auto, unfolding(crate::specs::BadPairs::note_by))]
pub fn note(before: bool, fails: bool, inconsistent: bool, after: bool) -> u8
    ensures { result ≡ note_by before fails inconsistent after }
{
    if fails {
        CRC_FAILED
    } else if inconsistent && (after || before) {
        BAD_OTHERWISE
    } else {
        GOOD
    }
}

// count_bad counts the notes that are not 0.
pub fn count_bad(notes: &[u8]) -> usize
    ensures { result ≡ bad_pairs notes.now }
{
    notes.iter().filter(|note| is_bad(**note)).count()
}
