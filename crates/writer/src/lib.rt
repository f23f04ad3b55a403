// The writer: index octets, seven a frame, become the protected multiframes of an utterance, or a refusal with 01's number and place.
#![tactic(auto)]

ghost use Rattle.std.specs.Prelude.{◌≡◌, ◌^◌, ◌<◌};
ghost use Rattle.writer.specs.Writing.{verdict, outcome, writing, number_of, place_of};

use layout::{FrameLayout, MultiframeLayout, UtteranceLayout};
use packing::Frames;
use refusals::{Refusal, Writing};
use settings::Settings;

// Every refusal, in 01's order. Nothing that can be written is lent, so that a refusal can change nothing.
fn decide(settings: Settings, indices: &[u8], room: usize) -> Result<usize, Writing>
    ensures { result ≡ verdict settings indices.now room }
{
    if !settings.is_right() {
        return Err(Writing::WrongSettings);
    }
    if indices.len() % FrameLayout::INDICES != 0 {
        return Err(Writing::PartFrame {
            octets: indices.len(),
        });
    }
    let frames = indices.len() / FrameLayout::INDICES;
    if UtteranceLayout::FRAMES < frames {
        return Err(Writing::TooMany { frames });
    }
    if let Some(frame) = wrong_frames::first_wide(indices) {
        return Err(Writing::WideIndex { frame });
    }
    if let Some(frame) = wrong_frames::first_early(indices) {
        return Err(Writing::ZeroFrame { frame });
    }
    let needed = MultiframeLayout::OCTETS * (frames / MultiframeLayout::FRAMES + 1);
    if room < needed {
        return Err(Writing::OutputShort { needed });
    }
    Ok(needed)
}

// write puts the utterance of these settings and index octets, seven a frame, into the front of out as multiframes and answers the number
// of octets written; octets beyond stay. Or it refuses, in 01's order, and every octet of out is as it came. 01's number and place of the
// answer are those of the definition.
#[tactic(auto, using(crate::proofs::Places::verdict_fits, crate::proofs::Laws::accepted))]
pub fn write(settings: Settings, indices: &[u8], out: &mut [u8]) -> Result<usize, Writing>
    ensures all { outcome result out.new ≡ writing settings indices.now out.old }
    ensures number { number_of result ≡ number_of (writing settings indices.now out.old).answer }
    ensures place { place_of result ≡ place_of (writing settings indices.now out.old).answer }
    ensures fits { place_of result < 2 ^ 64 }
{
    let octets = decide(settings, indices, out.len())?;
    let frames = Frames { octets: indices };
    image::put_image(settings, frames, octets / MultiframeLayout::OCTETS, out);
    Ok(octets)
}

// number_of gives 01's number of an answer: that of success, or the refusal's.
pub fn number_of(a: Result<usize, Writing>) -> u32
    ensures { result ≡ number_of a }
{
    match a {
        Ok(_) => refusals::SUCCESS,
        Err(r) => r.number(),
    }
}

// place_of gives the octets written, or 01's place of a refusal. It asks for a number that fits, as every answer of write has. number_of asks
// for nothing, so the two are no instances of one function.
pub fn place_of(a: Result<usize, Writing>) -> usize
    requires { place_of a < 2 ^ 64 }
    ensures { result ≡ place_of a }
{
    match a {
        Ok(octets) => octets,
        Err(r) => r.place(),
    }
}
