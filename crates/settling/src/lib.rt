// Settings: what the readings of an utterance's headers settle.
#![tactic(auto)]

ghost use Rattle.std.specs.Prelude.{◌≡◌, [], ◌≤◌, ◌<◌, length, get_or, None};
ghost use Rattle.settling.specs.Settling.{among, first_agreeing, only_one, settling};
ghost use Rattle.header_readings.specs.Stored.{open_all};
ghost use Rattle.settling.specs.Steps.{seen_before, settled_by, has_common};

use choices::Choices;
use header::Decoded;
use layout::Multiframe;

// What headers settle are common bits, SampRate, feType and EXP, as a message with its counter 0; or nothing.

// Whether a header was read with these common bits.
fn has_common(h: Option<Decoded>, common: u16) -> bool
    ensures { result ≡ has_common h common }
{
    h.is_some_and(|d| common == message::common_of(d.message))
}

// Whether a header before that of multiframe k was read with these common bits.
fn was_seen(headers: &[u32], k: Multiframe, common: u16) -> bool
    requires { k.0 ≤ length headers.now }
    ensures { result ≡ among common (seen_before (open_all headers.now) k.0) }
{
    headers[..k.0].iter().any(|reading| has_common(header_readings::open_reading(*reading), common))
}

// agreed gives what the header of multiframe k settles: its common bits, if an earlier readable one has the same.
pub fn agreed(headers: &[u32], k: Multiframe) -> Option<u16>
    requires { k.0 < length headers.now }
    ensures { result ≡ settled_by (get_or (open_all headers.now) k.0 None) (seen_before (open_all headers.now) k.0) }
{
    let d = header_readings::open_reading(headers[k.0])?;
    let common = message::common_of(d.message);
    was_seen(headers, k, common).then_some(common)
}

// A for, since the library has no law of which value find_map gives.
fn first_agreeing(headers: &[u32]) -> Option<u16>
    ensures { result ≡ first_agreeing [] (open_all headers.now) }
{
    for k in 0..headers.len() {
        if let Some(common) = agreed(headers, Multiframe(k)) {
            return Some(common);
        }
    }
    None
}

// An only header settles its common bits if it is itself a codeword (house). settle asks only where the caller does.
fn only_one(headers: &[u32]) -> Option<u16>
    ensures { result ≡ only_one (open_all headers.now) }
{
    let [only] = headers else {
        return None;
    };
    let d = header_readings::open_reading(*only)?;
    (d.flips == 0).then_some(message::common_of(d.message))
}

// settle gives what the readings of all headers settle. One header alone settles only where the caller asks for it (02, C-20).
pub fn settle(headers: &[u32], choices: Choices) -> Option<u16>
    ensures { result ≡ settling choices (open_all headers.now) }
{
    match first_agreeing(headers) {
        Some(common) => Some(common),
        None if choices.one_header_settles => only_one(headers),
        None => None,
    }
}
