// The image of an utterance: its index octets, seven a frame, laid down as protected multiframes. What may be written is decided above.
#![tactic(auto)]

ghost use Rattle.std.specs.Prelude.{◌≡◌, ◌+◌, ◌*◌, ◌≤◌, ◌<◌, length};
ghost use Rattle.lists.specs.Parts.{over};
ghost use Rattle.layout.specs.Layout.{multiframe_octets, most_multiframes};
ghost use Rattle.image.specs.Image.{multiframe, image};

use layout::{Multiframe, MultiframeLayout};
use message::Fields;
use packing::Frames;
use settings::Settings;

// put_multiframe stores multiframe k at its place; every other octet stays. It asks for at most 255 multiframes and room, which refusals 3
// and 6 have tested.
fn put_multiframe(settings: Settings, frames: Frames, k: Multiframe, out: &mut [u8])
    requires k_in_bounds { k.0 < most_multiframes }
    requires multiframe_octets_in_bounds { multiframe_octets * k.0 + multiframe_octets ≤ length out.old }
    ensures { out.new ≡ over out.old (multiframe_octets * k.0) multiframe_octets (multiframe settings frames.entry.octets.now k.0) }
{
    let at = MultiframeLayout::OCTETS * k.0;
    let count = ((k.0 + 1) & 15) as u8;
    let message = u16::from(Fields {
        settings,
        count,
        exp: 0,
    });
    let word = header::encode(message) as u64;
    bits::store(out, at, MultiframeLayout::SYNC_WORD, MultiframeLayout::SYNC);
    bits::store(
        out,
        at + MultiframeLayout::SYNC,
        word,
        MultiframeLayout::HEADER,
    );
    streams::put_stream(
        frames,
        k.first_pair(),
        out,
        at + MultiframeLayout::SYNC + MultiframeLayout::HEADER,
    );
}

// put_image stores the first m multiframes, one behind the other; octets beyond stay. It asks for what put_multiframe asks for.
pub fn put_image(settings: Settings, frames: Frames, m: usize, out: &mut [u8])
    requires most { m ≤ most_multiframes }
    requires m_in_bounds { multiframe_octets * m ≤ length out.old }
    ensures { out.new ≡ over out.old 0 (multiframe_octets * m) (image settings frames.entry.octets.now m) }
{
    for k in 0..m {
        put_multiframe(settings, frames, Multiframe(k), out);
    }
}
