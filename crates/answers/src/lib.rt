// The answers of the writer, the hunt and the header code put into lent numbers, as the entries for C and Rust give them: each function that
// tells one answers 0 or the refusal's number. And the settings that came as numbers of 64 bits.
#![tactic(auto)]

ghost use Rattle.std.specs.Prelude.{◌≡◌, ◌^◌, ◌<◌, true, false, MatchOption};
ghost use Rattle.settings.specs.Settings.{settings};
ghost use Rattle.writer.specs.Writing.{number_of, place_of};
ghost use Rattle.entries.specs.Bits.{hunt_returned, hunt_returning};
ghost use Rattle.entries.specs.Entries.{header_read};
ghost use Rattle.entries.specs.Laws.{settings_fit};

use header::Decoded;
use hunt::Found;
use refusals::{Hunt, Refusal, Writing};
use settings::Settings;

// settings_of gives the settings of a rate and a type that fit the octets that the writer takes. What does not fit is no setting, and must not be
// cut to one.
pub fn settings_of(rate: u64, kind: u64) -> Option<Settings>
    ensures { MatchOption result (settings_fit rate kind ≡ false) (λ s. (settings_fit rate kind ≡ true) × (s ≡ settings rate kind)) }
{
    let rate = u8::try_from(rate).ok()?;
    let kind = u8::try_from(kind).ok()?;
    Some(Settings { rate, kind })
}

// tell_header puts the message and the number of flipped bits into the lent numbers; of a lost header both stay.
pub fn tell_header(h: Option<Decoded>, message: &mut u16, flips: &mut u32) -> u32
    ensures { header_read result message.new flips.new message.old flips.old h }
{
    match h {
        Some(d) => {
            *message = d.message;
            *flips = d.flips;
            refusals::SUCCESS
        }
        None => refusals::UNREADABLE,
    }
}

// tell_written puts the octets written or the refusal's place into place. It asks for a number that fits, as every answer of write has.
pub fn tell_written(a: Result<usize, Writing>, place: &mut u64) -> u32
    requires { place_of a < 2 ^ 64 }
    ensures { (result ≡ number_of a) × (place.new ≡ place_of a) }
{
    *place = writer::place_of(a) as u64;
    writer::number_of(a)
}

// tell_hunted puts the bit found and the number of places tested into found and tested; or the refusal's place and the number of places tested
// into place and tested. What it does not name stays.
pub fn tell_hunted(
    h: Result<Found, Hunt>,
    found: &mut u64,
    tested: &mut u64,
    place: &mut u64,
) -> u32
    ensures { hunt_returned result found.new tested.new place.new ≡ hunt_returning found.old place.old h }
{
    match h {
        Ok(
            Found {
                place: at,
                tested: n,
            },
        ) => {
            *found = at as u64;
            *tested = n as u64;
            refusals::SUCCESS
        }
        Err(r) => {
            *tested = r.tested() as u64;
            *place = r.place() as u64;
            r.number()
        }
    }
}
