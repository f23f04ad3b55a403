// The hunting reader (02, C-13): the multiframes found at any bit are read as the octet reader reads them.
#![tactic(auto)]

ghost use Rattle.std.specs.Prelude.{◌≡◌, ◌*◌, length, take};
ghost use Rattle.layout.specs.Layout.{multiframe_octets, most_multiframes};
ghost use Rattle.tables.specs.Tables.{tables_of, RightTables};
ghost use Rattle.tables.specs.Lending.{lent_tables};
ghost use Rattle.reader.specs.Reading.{reading};
ghost use Rattle.hunting.specs.Hunting.{counted, outcome, reading_found, hunting_reading};

use choices::Choices;
use gathering::{TooMany, Whole};
use hunt::Matching;
use layout::{MultiframeLayout, UtteranceLayout};
use reader::Summary;
use refusals::Hunting;
use tables::Tables;

// Room for as many multiframes as an utterance may have.
const IMAGE: usize = MultiframeLayout::OCTETS * UtteranceLayout::MULTIFRAMES;

// What the octet reader answers of the multiframes found, the bits outside them, and how many places were tested.
#[derive(Clone, Copy)]
pub struct Counted {
    pub summary: Summary,
    pub outside: usize,
    pub tested: usize,
}

// The reading of what is found: 22, 15, or as the octet reader reads the multiframes put together.
fn read_found(
    octets: &[u8],
    from: usize,
    least: Matching,
    choices: Choices,
    tables: &Tables<'_>,
    index: &mut [u8],
    report: &mut [u8],
) -> Result<Counted, Hunting>
    requires { RightTables (lent_tables tables.now) }
    ensures { outcome result index.new report.new
        ≡ reading_found choices octets.now from least (lent_tables tables.now) index.old report.old }
{
    let mut image = [0u8; IMAGE];
    match gathering::gather(octets, from, least, &mut image) {
        Err(TooMany { place }) => Err(Hunting::TooMany { place }),
        Ok(Whole { count, tested }) => {
            if count == 0 {
                return Err(Hunting::Nowhere { from, tested });
            }
            let found = &image[..MultiframeLayout::OCTETS * count];
            let outside = gathering::outside_of(octets, from, count);
            let summary = reader::read_admitted(found, choices, tables, index, report)?;
            Ok(Counted {
                summary,
                outside,
                tested,
            })
        }
    }
}

// read finds the multiframes from bit from on, at any bit, and reads them as the octet reader does, by the same choices (02, C-20): an only
// multiframe found is an only one, and by default refused with 16. Or it refuses and leaves both buffers as they came. Nothing is asked of the
// caller. Codebook and thresholds come in apart, as C lends them, and are tested here.
pub fn read(
    octets: &[u8],
    from: usize,
    least: usize,
    choices: Choices,
    codebook: &[i32],
    thresholds: &[i32],
    index: &mut [u8],
    report: &mut [u8],
) -> Result<Counted, Hunting>
    ensures { outcome result index.new report.new
        ≡ hunting_reading choices octets.now from least (tables_of codebook.now thresholds.now) index.old report.old }
{
    let tables = tables::admit(codebook, thresholds)?;
    match Matching::asked(least) {
        Some(matching) => read_found(octets, from, matching, choices, &tables, index, report),
        None => Err(Hunting::MatchRange { least }),
    }
}
