// The reader: received octets become indices and a report, or a refusal that changes nothing.
// `reading` in specs/ says what it answers and leaves in both buffers, for every input.
#![tactic(auto)]

ghost use Rattle.std.specs.Prelude.{◌≡◌, ◌*◌, ◌≤◌, length};
ghost use Rattle.lists.specs.Parts.{over};
ghost use Rattle.layout.specs.Layout.{most_multiframes, index_octets, report_octets};
ghost use Rattle.tables.specs.Tables.{tables_of, RightTables};
ghost use Rattle.tables.specs.Lending.{lent_tables};
ghost use Rattle.header_readings.specs.Stored.{pack_all};
ghost use Rattle.carrier.specs.Carrier.{pair_count};
ghost use Rattle.bad_pairs.specs.Laws.{Good};
ghost use Rattle.report.specs.Report.{report_part};
ghost use Rattle.reader.specs.Reading.{answer_number, answer_values, index_part, summary};
ghost use Rattle.reader.specs.Reading.{outcome, reading_found, reading};

use carrier::Multiframes;
use choices::Choices;
use layout::{MultiframeLayout, UtteranceLayout};
use message::Fields;
use refusals::Reading;
use settings::Settings;
use tables::Tables;

// Success: the settled settings, the number of multiframes, speech, the number of bad pairs, and end.
#[derive(Clone, Copy)]
pub struct Summary {
    pub settings: Settings,
    pub multiframes: usize,
    pub speech: usize,
    pub bad: usize,
    // 01's number, 1 or 0, as the answer for C has it.
    pub end: u8,
}

// Places and headers for as many multiframes, and notes for as many pairs, as an utterance may have: the arrays of a reading.
const MULTIFRAMES: usize = UtteranceLayout::MULTIFRAMES;

const NOTES: usize = MultiframeLayout::PAIRS * MULTIFRAMES;

// An accepted reading is written: the index buffer's part and the report's part to their fronts, the rest of both stays. The two stay two
// parameters, here and in both readers, since the C interface lends them apart and each goes to functions of its own.
fn write(
    multiframes: &Multiframes<'_>,
    headers: &[u32],
    notes: &[u8],
    common: u16,
    index: &mut [u8],
    report: &mut [u8],
) -> Summary
    requires count { (1 ≤ length multiframes.now.places) × (length multiframes.now.places ≤ most_multiframes) }
    requires headers_value { (headers.now ≡ pack_all multiframes.now.octets multiframes.now.places (length multiframes.now.places))
        × (length notes.now ≡ pair_count multiframes.now.places) × Good notes.now }
    requires places_in_bounds { (index_octets * length multiframes.now.places ≤ length index.old)
        × (report_octets * length multiframes.now.places ≤ length report.old) }
    ensures answer { result ≡ summary multiframes.now.octets multiframes.now.places notes.now common }
    ensures index { index.new ≡ over index.old 0 (index_octets * length multiframes.now.places)
        (index_part multiframes.now.octets multiframes.now.places notes.now) }
    ensures report { report.new ≡ over report.old 0 (report_octets * length multiframes.now.places)
        (report_part multiframes.now.octets multiframes.now.places notes.now common) }
{
    notes::take_all_apart(multiframes, index);
    replacing::replace(notes, index);
    report::put_report(headers, notes, common, report);
    let m = multiframes.count();
    let settled = Fields::from(common);
    let settings = settled.settings;
    Summary {
        settings,
        multiframes: m,
        speech: replacing::speech_of(index, m),
        bad: bad_pairs::count_bad(notes),
        end: replacing::end_of(index, m),
    }
}

// The reading of multiframes already found, with room of its own for headers and notes: decided first, and written only if it is accepted.
fn read_found(
    multiframes: &Multiframes<'_>,
    choices: Choices,
    tables: &Tables<'_>,
    index: &mut [u8],
    report: &mut [u8],
) -> Result<Summary, Reading>
    requires { length multiframes.now.places ≤ most_multiframes }
    ensures { outcome result index.new report.new
        ≡ reading_found choices multiframes.now.octets (lent_tables tables.now) index.old report.old multiframes.now.places }
{
    let m = multiframes.count();
    let pairs = MultiframeLayout::PAIRS * m;
    let mut headers = [0u32; MULTIFRAMES];
    let mut notes = [0u8; NOTES];
    let common = deciding::decide(
        multiframes,
        choices,
        tables,
        index.len(),
        report.len(),
        &mut headers[..m],
        &mut notes[..pairs],
    )?;
    Ok(write(
        multiframes,
        &headers[..m],
        &notes[..pairs],
        common,
        index,
        report,
    ))
}

// read_admitted reads as read does, by tables that both readers admit first.
pub fn read_admitted(
    octets: &[u8],
    choices: Choices,
    tables: &Tables<'_>,
    index: &mut [u8],
    report: &mut [u8],
) -> Result<Summary, Reading>
    requires { RightTables (lent_tables tables.now) }
    ensures { outcome result index.new report.new ≡ reading choices octets.now (lent_tables tables.now) index.old report.old }
{
    let mut places = [0usize; MULTIFRAMES];
    let count = cutting::cut_into(octets, &mut places)?;
    let multiframes = Multiframes::new(octets, &places[..count]);
    read_found(&multiframes, choices, tables, index, report)
}

// read turns received octets into the indices of all frames and a report, or refuses and leaves both buffers as they came. By default an only
// multiframe is refused with 16; the caller may choose that one header alone settles (02, C-20).
// Nothing is asked of the caller: codebook, 1,280 numbers; 14 thresholds, none negative; an index buffer of 168 and a report buffer of 13
// octets for each multiframe; else 01's refusals, and 02's 10. Codebook and thresholds come in apart, as C lends them, and are tested here.
// 01's number and values of the answer, which of a refusal are its place, are those of the definition.
pub fn read(
    octets: &[u8],
    choices: Choices,
    codebook: &[i32],
    thresholds: &[i32],
    index: &mut [u8],
    report: &mut [u8],
) -> Result<Summary, Reading>
    ensures all { outcome result index.new report.new
        ≡ reading choices octets.now (tables_of codebook.now thresholds.now) index.old report.old }
    ensures number { answer_number result
        ≡ answer_number (reading choices octets.now (tables_of codebook.now thresholds.now) index.old report.old).answer }
    ensures values { answer_values result
        ≡ answer_values (reading choices octets.now (tables_of codebook.now thresholds.now) index.old report.old).answer }
{
    let tables = tables::admit(codebook, thresholds)?;
    read_admitted(octets, choices, &tables, index, report)
}
