// The sixteen message bits of a header: made of their fields, and taken apart. Whoever stands above relies on the promises and laws alone:
// the definitions are shut.
#![tactic(auto)]

ghost use Rattle.std.specs.Prelude.{◌≡◌};
ghost use Rattle.message.specs.Message.{message, fields_of, common_bits};

use settings::Settings;

// The fields of a message: the settings (SampRate and feType), MframeCnt, and EXP1 to EXP9 as one number.
#[derive(Clone, Copy)]
pub struct Fields {
    pub settings: Settings,
    pub count: u8,
    pub exp: u16,
}

// The message of its fields; of a number too large for its field the low bits count.
impl From<Fields> for u16 {
    ghost from_gives = { λ f m. m ≡ message f.settings f.count f.exp };

    fn from(f: Fields) -> u16 {
        let rate = (f.settings.rate & 3) as u16;
        let kind = (f.settings.kind & 1) as u16;
        let count = (f.count & 15) as u16;
        let exp = f.exp & 511;
        rate | (kind << 2) | (count << 3) | (exp << 7)
    }
}

// The fields of a message.
impl From<u16> for Fields {
    ghost from_gives = { λ m f. f ≡ fields_of m };

    fn from(message: u16) -> Fields {
        let rate = (message & 3) as u8;
        let kind = ((message >> 2) & 1) as u8;
        let settings = Settings { rate, kind };
        let count = ((message >> 3) & 15) as u8;
        Fields {
            settings,
            count,
            exp: message >> 7,
        }
    }
}

// The common bits of a message: all but the counter.
pub fn common_of(message: u16) -> u16
    ensures { result ≡ common_bits message }
{
    (message & 7) | ((message >> 7) << 7)
}
