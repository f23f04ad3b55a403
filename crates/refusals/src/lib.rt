// Every refusal, once for each entry: its case with what its place needs, and the number and the place that 01 and 02 give it. Success
// is 0.
#![tactic(auto)]

ghost use Rattle.std.specs.Prelude.{◌≡◌, ℕ, ◌^◌, ◌<◌};
ghost use Rattle.refusals.specs.Refusals.{writing_number, writing_place, reading_number, reading_place, hunt_number, hunt_place, hunt_tested, hunting_number, hunting_place};
ghost use Rattle.refusals.specs.declared.Hunting.TheVariants.{Octets};

use layout::Frame;

// SUCCESS is the number of an answer that is no refusal.
pub const SUCCESS: u32 = 0;

// Four numbers that 01 does not have (house), above all of its own. They have no place. Numbers and no cases: C fixes
// them, and the entries for C alone answer them.
// NO_SUCH_CHOICE is the number of a choice that there is not.
pub const NO_SUCH_CHOICE: u32 = 96;

// UNREADABLE is the number of a header that no codeword is near enough to.
pub const UNREADABLE: u32 = 97;

// WRONG_LENGTH is the number of a slice that has another length than the multiframe's.
pub const WRONG_LENGTH: u32 = 98;

// NO_ROOM is the number of an answer that is too short for its numbers.
pub const NO_ROOM: u32 = 99;

// Why an utterance is not written: 01's refusals 1 to 6. Frames count from 0 here, in 01's places from 1.
#[derive(Clone, Copy)]
pub enum Writing {
    WrongSettings,
    PartFrame { octets: usize },
    TooMany { frames: usize },
    WideIndex { frame: Frame },
    ZeroFrame { frame: Frame },
    OutputShort { needed: usize },
}

// Why received octets are not read: 01's refusals 11 to 20, and 02's 10, a negative threshold, numbered from 0.
#[derive(Clone, Copy)]
pub enum Reading {
    WrongTables,
    NegativeThreshold { threshold: usize },
    Unknown { place: usize },
    CutShort { place: usize },
    Empty { octets: usize },
    TooMany { place: usize },
    Unsettled,
    Unfit,
    IndexShort { needed: usize },
    ReportShort { needed: usize },
    AllBad,
}

// Why a hunt finds nothing: 02's refusals 21 and 22.
#[derive(Clone, Copy)]
pub enum Hunt {
    MatchRange { least: usize },
    Nowhere { from: usize, tested: usize },
}

// Why a hunting reading is refused: as the octet reader refuses what was found, for one of the hunt's reasons, or for a match after as
// many multiframes as an utterance may have. That is 15, as the octet reader has it, but its place is a bit.
// The hunt's two cases stand here again, and not as one that holds a Hunt, since theorems name them (`hunting_of`).
#[derive(Clone, Copy)]
pub enum Hunting {
    Octets(Reading),
    MatchRange { least: usize },
    Nowhere { from: usize, tested: usize },
    TooMany { place: usize },
}

// What a refusal tells whoever asked: which it is, and where.
pub trait Refusal: Copy {
    ghost number: { Self → ℕ };

    ghost place: { Self → ℕ };

    // The refusals whose place can be asked for: a place that does not fit cannot.
    ghost can_place: { Self → Type 0 };

    // 01's number of it, or 02's; no two that an entry answers share one.
    fn number(self) -> u32
        ensures { result ≡ number self };

    // The place that 01 or 02 gives it; 0 where it has none.
    fn place(self) -> usize
        requires { can_place self }
        ensures { result ≡ place self };
}

impl Refusal for Writing {
    ghost number = { writing_number };

    ghost place = { writing_place };

    // A frame's place counts from 1. Every place that the writer answers fits.
    ghost can_place = { λ r. writing_place r < 2 ^ 64 };

    fn number(self) -> u32 {
        match self {
            Writing::WrongSettings => 1,
            Writing::PartFrame { .. } => 2,
            Writing::TooMany { .. } => 3,
            Writing::WideIndex { .. } => 4,
            Writing::ZeroFrame { .. } => 5,
            Writing::OutputShort { .. } => 6,
        }
    }

    fn place(self) -> usize {
        match self {
            Writing::WrongSettings => 0,
            Writing::PartFrame { octets } => octets,
            Writing::TooMany { frames } => frames,
            Writing::WideIndex { frame } => frame.0 + 1,
            Writing::ZeroFrame { frame } => frame.0 + 1,
            Writing::OutputShort { needed } => needed,
        }
    }
}

impl Refusal for Reading {
    ghost number = { reading_number };

    ghost place = { reading_place };

    ghost can_place = { λ _. Unit {0} };

    fn number(self) -> u32 {
        match self {
            Reading::WrongTables => 11,
            Reading::NegativeThreshold { .. } => 10,
            Reading::Unknown { .. } => 12,
            Reading::CutShort { .. } => 13,
            Reading::Empty { .. } => 14,
            Reading::TooMany { .. } => 15,
            Reading::Unsettled => 16,
            Reading::Unfit => 17,
            Reading::IndexShort { .. } => 18,
            Reading::ReportShort { .. } => 19,
            Reading::AllBad => 20,
        }
    }

    fn place(self) -> usize {
        match self {
            Reading::WrongTables => 0,
            Reading::NegativeThreshold { threshold } => threshold,
            Reading::Unknown { place } => place,
            Reading::CutShort { place } => place,
            Reading::Empty { octets } => octets,
            Reading::TooMany { place } => place,
            Reading::Unsettled => 0,
            Reading::Unfit => 0,
            Reading::IndexShort { needed } => needed,
            Reading::ReportShort { needed } => needed,
            Reading::AllBad => 0,
        }
    }
}

impl Refusal for Hunt {
    ghost number = { hunt_number };

    ghost place = { hunt_place };

    ghost can_place = { λ _. Unit {0} };

    fn number(self) -> u32 {
        match self {
            Hunt::MatchRange { .. } => 21,
            Hunt::Nowhere { .. } => 22,
        }
    }

    fn place(self) -> usize {
        match self {
            Hunt::MatchRange { least } => least,
            Hunt::Nowhere { from, .. } => from,
        }
    }
}

impl Hunt {
    // How many places were tested before the refusal.
    pub fn tested(self) -> usize
        ensures { result ≡ hunt_tested self }
    {
        match self {
            Hunt::MatchRange { .. } => 0,
            Hunt::Nowhere { tested, .. } => tested,
        }
    }
}

impl Refusal for Hunting {
    ghost number = { hunting_number };

    ghost place = { hunting_place };

    ghost can_place = { λ _. Unit {0} };

    fn number(self) -> u32 {
        match self {
            Hunting::Octets(r) => r.number(),
            Hunting::MatchRange { .. } => 21,
            Hunting::Nowhere { .. } => 22,
            Hunting::TooMany { .. } => 15,
        }
    }

    fn place(self) -> usize {
        match self {
            Hunting::Octets(r) => r.place(),
            Hunting::MatchRange { least } => least,
            Hunting::Nowhere { from, .. } => from,
            Hunting::TooMany { place } => place,
        }
    }
}

// A hunting reading hands on what the octet reader refuses.
impl From<Reading> for Hunting {
    ghost from_gives = { λ r q. q ≡ Octets r };

    fn from(refusal: Reading) -> Hunting {
        Hunting::Octets(refusal)
    }
}
