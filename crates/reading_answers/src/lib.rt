// The answers of the readings put into lent numbers, as the entries for C and Rust give them: 0 or the refusal's number.
#![tactic(auto)]

ghost use Rattle.std.specs.Prelude.{◌≡◌, ℕ, List, [], ◌≤◌, length, IfErr};
ghost use Rattle.entries.specs.Bits.{numbers_of};
ghost use Rattle.entries.specs.Entries.{summary_numbers, returned, answered, told};
ghost use Rattle.entries.specs.Settle.{beginning_numbers};

use hunting::Counted;
use reader::Summary;
use refusals::Refusal;
use settings::Settings;
use until_settled::Beginning;

// A success that is given as N numbers.
pub trait Numbered<const N: usize> {
    ghost numbers: { Self → List ℕ };

    fn numbers(self) -> [u64; N]
        ensures { result ≡ numbers self };
}

// 01's six, in its order.
impl Numbered<6> for Summary {
    ghost numbers = { summary_numbers };

    fn numbers(self) -> [u64; 6] {
        [
            self.settings.rate as u64,
            self.settings.kind as u64,
            self.multiframes as u64,
            self.speech as u64,
            self.bad as u64,
            self.end as u64,
        ]
    }
}

// The octet reader's six, the bits outside and the places tested.
impl Numbered<8> for Counted {
    ghost numbers = { numbers_of };

    fn numbers(self) -> [u64; 8] {
        let [rate, kind, multiframes, speech, bad, end]: [u64; 6] = self.summary.numbers();
        [
            rate,
            kind,
            multiframes,
            speech,
            bad,
            end,
            self.outside as u64,
            self.tested as u64,
        ]
    }
}

// Rate, type and multiframes read.
impl Numbered<3> for Beginning {
    ghost numbers = { beginning_numbers };

    fn numbers(self) -> [u64; 3] {
        let Settings { rate, kind } = self.settings;
        [rate as u64, kind as u64, self.multiframes as u64]
    }
}

// tell puts a reading's numbers into answer, and place stays; or the refusal's place into place, and answer stays. The buffers are the reader's,
// so none is told of here. It asks for the numbers' room, which the entry has tested.
pub fn tell<const N: usize, A: Numbered<N>, R: Refusal>(
    read: Result<A, R>,
    answer: &mut [u64],
    place: &mut u64,
) -> u32
    requires room { N ≤ length answer.old }
    requires place { IfErr read R.can_place }
    ensures { returned result [] [] answer.new place.new ≡ answered N answer.old place.old [] [] (told A.numbers R.number R.place read) }
{
    match read {
        Ok(success) => {
            answer[..N].copy_from_slice(&success.numbers());
            refusals::SUCCESS
        }
        Err(refusal) => {
            *place = refusal.place() as u64;
            refusal.number()
        }
    }
}
