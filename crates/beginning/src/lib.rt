// Settings without the whole utterance (02, C-11): multiframes are read only until the settings are settled.
// `until_settled` of the crate until_settled says what is answered, for all octets and every choice.
#![tactic(auto)]

ghost use Rattle.std.specs.Prelude.{◌≡◌, length, Some};
ghost use Rattle.layout.specs.Layout.{most_multiframes};
ghost use Rattle.header_readings.specs.Stored.{open_all};
ghost use Rattle.until_settled.specs.UntilSettled.{settled_answer, end_answer, until_settled};

use choices::Choices;
use cutting::Piece;
use layout::{Multiframe, MultiframeLayout, UtteranceLayout};
use message::Fields;
use refusals::Reading;
use settings::Settings;
use until_settled::Beginning;

// Settled common bits, with so many multiframes read: their settings, or 17.
fn settled(common: u16, multiframes: usize) -> Result<Beginning, Reading>
    ensures { result ≡ settled_answer multiframes (Some common) }
{
    if unfit::is_unfit(common) {
        return Err(Reading::Unfit);
    }
    Ok(Beginning {
        settings: Fields::from(common).settings,
        multiframes,
    })
}

// The end of so many octets: no header that was read agrees with an earlier one, so an only one settles, where the caller asks for it, or
// none does.
fn at_end(octets: usize, headers: &[u32], choices: Choices) -> Result<Beginning, Reading>
    ensures { result ≡ end_answer choices octets (open_all headers.now) }
{
    if headers.is_empty() {
        return Err(Reading::Empty { octets });
    }
    let common = settling::settle(headers, choices).ok_or(Reading::Unsettled)?;
    settled(common, headers.len())
}

// read_into is read, with the array lent in which it keeps the readings of headers: room for as many as an utterance may have.
fn read_into(octets: &[u8], choices: Choices, headers: &mut [u32]) -> Result<Beginning, Reading>
    requires { length headers.old ≡ most_multiframes }
    ensures { result ≡ until_settled choices octets.now }
{
    let mut p = 0;
    let mut m = 0;
    // The crate cutting walks the same pieces to their end: a method for the three refusals would be longer than the three lines.
    // A loop, since only a piece tells where the next one begins.
    loop {
        match cutting::piece_of(&octets[p..], m) {
            Piece::Multiframe => {
                headers[m] = header_readings::reading_at(octets, p);
                if let Some(common) = settling::agreed(&headers[..m + 1], Multiframe(m)) {
                    return settled(common, m + 1);
                }
                p += MultiframeLayout::OCTETS;
                m += 1;
            }
            Piece::Inverse => {
                p += MultiframeLayout::SYNC;
            }
            Piece::End => return at_end(octets.len(), &headers[..m], choices),
            Piece::Unknown => return Err(Reading::Unknown { place: p }),
            Piece::CutShort => return Err(Reading::CutShort { place: p }),
            Piece::TooMany => return Err(Reading::TooMany { place: p }),
        }
    }
}

// read gives the settings as soon as two headers agree; it reads no header behind the second of them, and looks at no octet behind its
// multiframe. Nothing is asked of the caller: if nothing settles before the end, it refuses as the octet reader does.
pub fn read(octets: &[u8], choices: Choices) -> Result<Beginning, Reading>
    ensures { result ≡ until_settled choices octets.now }
{
    let mut headers = [0u32; UtteranceLayout::MULTIFRAMES];
    read_into(octets, choices, &mut headers)
}
