// A multiframe in octets: its header as a word, and its feature stream.
#![tactic(auto)]

ghost use Rattle.std.specs.Prelude.{◌≡◌, ◌+◌, ◌≤◌, ◌<◌, length};
ghost use Rattle.layout.specs.Layout.{multiframe_octets, stream_octets};
ghost use Rattle.cutting.specs.Laws.{Placed};
ghost use Rattle.carrier.specs.Carrier.{header_word, stream_from, in_places, word_at, stream_at, multiframes_of};

use layout::{Multiframe, MultiframeLayout};
use std::marker::Model;

// header_word gives the header of the multiframe at a place, as a word. It asks, as stream_at, for a whole multiframe, which cutting has found:
// a fact of octets and one place, which Multiframes has of all places.
pub fn header_word(octets: &[u8], place: usize) -> u32
    requires { place + multiframe_octets ≤ length octets.now }
    ensures { result ≡ header_word octets.now place }
{
    (bits::word(octets, place + MultiframeLayout::SYNC) & 0xffffffff) as u32
}

// stream_at lends the feature stream of the multiframe at a place.
#[tactic(auto, using(lists::specs::Parts::lent))]
pub fn stream_at<'a>(octets: &'a [u8], place: usize) -> &'a [u8]
    requires { place + multiframe_octets ≤ length octets.now }
    ensures { result.now ≡ stream_from octets.now place }
{
    let at = place + MultiframeLayout::SYNC + MultiframeLayout::HEADER;
    &octets[at..at + MultiframeLayout::STREAM]
}

// Received octets that are cut up, and the places at which their multiframes begin, a whole one at each: lent together, and taken together
// by all that reads headers, packets and frames. A contract sees the definitions' record of both. That they are at most 255 is asked where
// it matters: in this type it would be asked where headers are read and CRCs tried, too.
#[derive(Drop)]
pub struct Multiframes<'a> {
    octets: &'a [u8],
    places: &'a [usize],
}

impl<'a> Model for Multiframes<'a> {
    ghost use Rattle.cutting.specs.Laws.{Placed};
    ghost use Rattle.carrier.specs.Carrier.{Multiframes, multiframes_of};

    ghost Value = { Multiframes };

    ghost view = { λ m. multiframes_of m.octets.now m.places.now };

    ghost invariant = { λ m. Placed m.octets.now m.places.now };
}

impl<'a> Multiframes<'a> {
    // new lends octets and places of whole multiframes in them, as cutting finds them.
    pub fn new(octets: &'a [u8], places: &'a [usize]) -> Multiframes<'a>
        requires { Placed octets.now places.now }
        ensures { result ≡ multiframes_of octets.now places.now }
    {
        Multiframes { octets, places }
    }

    // octets lends all octets.
    pub fn octets(&self) -> &'a [u8]
        ensures { result.now ≡ self.now.octets }
    {
        self.octets
    }

    // count gives how many multiframes there are.
    pub fn count(&self) -> usize
        ensures { result ≡ length self.now.places }
    {
        self.places.len()
    }

    // header_word gives the header of multiframe k.
    pub fn header_word(&self, k: Multiframe) -> u32
        requires { k.0 < length self.now.places }
        ensures { result ≡ word_at self.now.octets (in_places self.now.places) k.0 }
    {
        header_word(self.octets, self.places[k.0])
    }

    // stream lends the feature stream of multiframe k.
    #[tactic(auto, using(crate::specs::Laws::length_stream))]
    pub fn stream(&self, k: Multiframe) -> &'a [u8]
        requires { k.0 < length self.now.places }
        ensures value { result.now ≡ stream_at self.now.octets (in_places self.now.places) k.0 }
        ensures whole { length result.now ≡ stream_octets }
    {
        stream_at(self.octets, self.places[k.0])
    }
}
