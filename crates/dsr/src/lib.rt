// The entries for C and Rust: numbers and slices only, and nothing is asked of the caller. All but the encoder of headers answer 0 if they
// are done, and else the number of a refusal. What each gives is defined in the crate entries; the crates answers and reading_answers put what a
// writing, a hunt, a reading or a header's reading answers into the lent numbers. c/dsr.h says the same in C.
#![tactic(auto)]

ghost use Rattle.std.specs.Prelude.{◌≡◌, [], length, MatchResult};
ghost use Rattle.choices.specs.Choices.{asked};
ghost use Rattle.tables.specs.Tables.{tables_of};
ghost use Rattle.header_code.specs.Code.{codeword};
ghost use Rattle.header.specs.Reading.{reading};
ghost use Rattle.entries.specs.Bits.{hunt_returned, dsr_hunt, dsr_read_bits};
ghost use Rattle.entries.specs.Settle.{dsr_settle};
ghost use Rattle.entries.specs.Entries.{header_read, packed, packing, unpacked, unpacking, write_returned, dsr_write, returned, dsr_read, Chosen, Unchosen};

use choices::Choices;
use layout::{MultiframeLayout, Pair, ReadingLayout};
use packing::Frames;
use refusals::{Refusal, Writing};

// The numbers of a reading's answer, those of a hunting reading's, and those of settings before the end.
const ANSWER: usize = 6;

const COUNTED: usize = 8;

const SETTLED: usize = 3;

// chosen_by gives the choices that a number names, if the answer has room for N numbers: the room is tested first. Else the refusal's number,
// which each entry answers by a match, and not by ?, since C has no Result.
fn chosen_by<const N: usize>(choices: u64, answer: &[u64]) -> Result<Choices, u32>
    ensures { MatchResult result (Chosen N (length answer.now) (asked choices)) (Unchosen N (length answer.now) (asked choices)) }
{
    if answer.len() < N {
        return Err(refusals::NO_ROOM);
    }
    choices::asked_by(choices).ok_or(refusals::NO_SUCH_CHOICE)
}

// dsr_header_encode gives the codeword of a 16-bit message.
#[unsafe(no_mangle)]
pub extern "C" fn dsr_header_encode(message: u16) -> u32
    ensures { result ≡ codeword message }
{
    header::encode(message)
}

// dsr_header_read answers 0 and puts the message and the number of flipped bits into the lent numbers; or 97 for a lost header (house), and
// then both stay.
#[unsafe(no_mangle)]
pub extern "C" fn dsr_header_read(word: u32, message: &mut u16, flips: &mut u32) -> u32
    ensures { header_read result message.new flips.new message.old flips.old (reading word) }
{
    answers::tell_header(header::read(word), message, flips)
}

// dsr_pack turns the 24 frames of a multiframe into its stream and answers 0; or 98 for a wrong length (house), or the writer's 4 for an
// index above 63, and then the stream stays.
#[unsafe(no_mangle)]
pub extern "C" fn dsr_pack(indices: &[u8], stream: &mut [u8]) -> u32
    ensures { packed result stream.new ≡ packing indices.now stream.old }
{
    if indices.len() != ReadingLayout::INDEX || stream.len() != MultiframeLayout::STREAM {
        return refusals::WRONG_LENGTH;
    }
    match wrong_frames::first_wide(indices) {
        Some(f) => Writing::WideIndex { frame: f }.number(),
        None => {
            streams::put_stream(Frames { octets: indices }, Pair(0), stream, 0);
            refusals::SUCCESS
        }
    }
}

// dsr_unpack turns a stream into its 24 frames and twelve notes, 0 for a right CRC and 1 for a failed one, and answers 0; or 98 for a wrong
// length (house), and then both lent buffers stay.
#[unsafe(no_mangle)]
pub extern "C" fn dsr_unpack(stream: &[u8], indices: &mut [u8], notes: &mut [u8]) -> u32
    ensures { unpacked result indices.new notes.new ≡ unpacking stream.now indices.old notes.old }
{
    if stream.len() != MultiframeLayout::STREAM
        || indices.len() != ReadingLayout::INDEX
        || notes.len() != MultiframeLayout::PAIRS
    {
        return refusals::WRONG_LENGTH;
    }
    notes::take_stream_apart(stream, indices, Pair(0));
    notes::note_stream(stream, notes, Pair(0));
    refusals::SUCCESS
}

// dsr_write answers 01's number, 0 for success, and puts the octets written or the refusal's place into place. Rate and type are numbers of
// 64 bits, so that a caller's number arrives as it is: 256 is refused, and not taken for 0.
#[unsafe(no_mangle)]
pub extern "C" fn dsr_write(
    rate: u64,
    kind: u64,
    indices: &[u8],
    out: &mut [u8],
    place: &mut u64,
) -> u32
    ensures { write_returned result out.new place.new ≡ dsr_write rate kind indices.now out.old }
{
    let written = match answers::settings_of(rate, kind) {
        Some(settings) => writer::write(settings, indices, out),
        None => Err(Writing::WrongSettings),
    };
    answers::tell_written(written, place)
}

// dsr_read answers 0 and puts six numbers (rate, type, multiframes, speech, bad, end) into answer, and place stays; or 01's number, and puts
// the refusal's place into place, and all other lent memory stays. By default (choices 0) an only multiframe is refused with 16; choices 1 asks
// for the old rule, by which one header alone settles (02, C-20). Room for fewer than six numbers is refused with 99 and then any other number
// of choices with 96 (house), and all lent memory stays.
#[unsafe(no_mangle)]
pub extern "C" fn dsr_read(
    octets: &[u8],
    choices: u64,
    codebook: &[i32],
    thresholds: &[i32],
    index: &mut [u8],
    report: &mut [u8],
    answer: &mut [u64],
    place: &mut u64,
) -> u32
    ensures { returned result index.new report.new answer.new place.new
        ≡ dsr_read octets.now (asked choices) (tables_of codebook.now thresholds.now) index.old report.old answer.old place.old }
{
    match chosen_by::<ANSWER>(choices, answer) {
        Ok(chosen) => {
            let read = reader::read(octets, chosen, codebook, thresholds, index, report);
            reading_answers::tell(read, answer, place)
        }
        Err(number) => number,
    }
}

// dsr_settle reads multiframes only until the settings are settled (02, C-11): it answers 0 and puts three numbers (rate, type, multiframes
// read) into answer, and place stays; or 01's number, 12 to 17, and puts the refusal's place into place, and answer stays. Choices are those
// of dsr_read. Room for fewer than three numbers is refused with 99 and then a number that names no choice with 96, and all lent memory stays.
#[unsafe(no_mangle)]
pub extern "C" fn dsr_settle(
    octets: &[u8],
    choices: u64,
    answer: &mut [u64],
    place: &mut u64,
) -> u32
    ensures { returned result [] [] answer.new place.new ≡ dsr_settle octets.now (asked choices) answer.old place.old }
{
    match chosen_by::<SETTLED>(choices, answer) {
        Ok(chosen) => reading_answers::tell(beginning::read(octets, chosen), answer, place),
        Err(number) => number,
    }
}

// dsr_hunt answers 0 and puts the bit found and the number of places tested into found and tested; or 02's number, and puts the refusal's
// place and the number of places tested into place and tested. What it does not name stays.
#[unsafe(no_mangle)]
pub extern "C" fn dsr_hunt(
    octets: &[u8],
    from: u64,
    least: u64,
    found: &mut u64,
    tested: &mut u64,
    place: &mut u64,
) -> u32
    ensures { hunt_returned result found.new tested.new place.new ≡ dsr_hunt octets.now from least found.old place.old }
{
    let hunted = hunt::hunt(octets, from as usize, least as usize);
    answers::tell_hunted(hunted, found, tested, place)
}

// dsr_read_bits is dsr_read for bits with no octet boundary: it answers 0 and puts eight numbers (dsr_read's six, bits outside, places
// tested) into answer, and place stays; or the refusal's number, and puts its place into place, and all other lent memory stays. Choices are
// those of dsr_read. Room for fewer than eight numbers is refused with 99 and then a number that names no choice with 96, and all lent memory
// stays.
#[unsafe(no_mangle)]
pub extern "C" fn dsr_read_bits(
    octets: &[u8],
    from: u64,
    least: u64,
    choices: u64,
    codebook: &[i32],
    thresholds: &[i32],
    index: &mut [u8],
    report: &mut [u8],
    answer: &mut [u64],
    place: &mut u64,
) -> u32
    ensures { returned result index.new report.new answer.new place.new
        ≡ dsr_read_bits octets.now from least (asked choices) (tables_of codebook.now thresholds.now) index.old report.old answer.old place.old }
{
    match chosen_by::<COUNTED>(choices, answer) {
        Ok(chosen) => {
            let read = hunting::read(
                octets,
                from as usize,
                least as usize,
                chosen,
                codebook,
                thresholds,
                index,
                report,
            );
            reading_answers::tell(read, answer, place)
        }
        Err(number) => number,
    }
}
