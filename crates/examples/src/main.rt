// Runs the examples of 01 that are not marked (P) through the library and prints what it answers: number and place, or octets written.
// The stored output holds them to 01's text.
#![tactic(auto)]

use choices::Choices;
use layout::{FrameLayout, MultiframeLayout, ReadingLayout, UtteranceLayout};
use refusals::Refusal;
use settings::Settings;
use std::io;

// Index octets of one frame more than the most that can be written, and an output for the most multiframes.
const INDICES: usize = FrameLayout::INDICES * (UtteranceLayout::FRAMES + 1);

const OUTPUT: usize = MultiframeLayout::OCTETS * UtteranceLayout::MULTIFRAMES;

fn print_numbers(rt: &impl Print, name: &str, first: u64, second: u64) -> io::Result<()> {
    println!(rt; "{name}: {first} {second}")
}

// What the writer says to these indices at 8 kHz: its number, and the octets written or the place.
fn show_writing(rt: &impl Print, name: &str, indices: &[u8], out: &mut [u8]) -> io::Result<()> {
    let answer = writer::write(Settings { rate: 0, kind: 0 }, indices, out);
    print_numbers(
        rt,
        name,
        writer::number_of(answer) as u64,
        writer::place_of(answer) as u64,
    )
}

fn show_counts(rt: &impl Print) -> io::Result<()> {
    let ones = [1u8; INDICES];
    let mut out = [0u8; OUTPUT];
    show_writing(rt, "no frame", &ones[..0], &mut out)?;
    show_writing(
        rt,
        "23 frames",
        &ones[..(MultiframeLayout::FRAMES - 1) * FrameLayout::INDICES],
        &mut out,
    )?;
    show_writing(
        rt,
        "24 frames",
        &ones[..MultiframeLayout::FRAMES * FrameLayout::INDICES],
        &mut out,
    )?;
    show_writing(
        rt,
        "6119 frames",
        &ones[..UtteranceLayout::FRAMES * FrameLayout::INDICES],
        &mut out,
    )?;
    show_writing(rt, "6120 frames", &ones, &mut out)
}

fn show_indices(rt: &impl Print) -> io::Result<()> {
    let mut out = [0u8; MultiframeLayout::OCTETS];
    let largest = [63u8; FrameLayout::INDICES];
    show_writing(rt, "index 63", &largest, &mut out)?;
    let wide = [64u8; FrameLayout::INDICES];
    show_writing(rt, "index 64", &wide, &mut out)
}

// What the reader says to these octets by these choices, with all codebook numbers and thresholds 0: 0 and speech, or its number and place.
fn show_reading(rt: &impl Print, name: &str, octets: &[u8], choices: Choices) -> io::Result<()> {
    let codebook = [0i32; ReadingLayout::CODEBOOK];
    let thresholds = [0i32; ReadingLayout::THRESHOLDS];
    let mut index = [0u8; ReadingLayout::INDEX];
    let mut report = [0u8; ReadingLayout::REPORT];
    match reader::read(
        octets,
        choices,
        &codebook,
        &thresholds,
        &mut index,
        &mut report,
    ) {
        Ok(s) => print_numbers(rt, name, 0, s.speech as u64),
        Err(r) => print_numbers(rt, name, r.number() as u64, r.place() as u64),
    }
}

// The example of 01's dsrlist: one multiframe with the header of count 1, whose first index is 1 and whose first CRC is the term X. It is read by
// 01's rule, that one header alone settles, which is asked for by name; by default it is refused (02, C-20).
fn show_readings(rt: &impl Print) -> io::Result<()> {
    let asked = Choices {
        one_header_settles: true,
    };
    let default = Choices::default();
    let mut received = [0u8; MultiframeLayout::OCTETS];
    received[..7].copy_from_slice(&[0x87, 0xb2, 0x08, 0, 0x0e, 0xee, 0x01]);
    received[17] = 0x04;
    show_reading(rt, "one frame received", &received, asked)?;
    show_reading(rt, "one frame received, by default", &received, default)?;
    show_reading(
        rt,
        "143 octets that open with a sync",
        &received[..MultiframeLayout::OCTETS - 1],
        default,
    )?;
    show_reading(rt, "nothing received", &received[..0], default)
}

fn main(rt: HostRuntime) -> io::Result<()> {
    show_counts(&rt)?;
    show_indices(&rt)?;
    show_readings(&rt)
}
