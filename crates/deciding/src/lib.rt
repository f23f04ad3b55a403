// What is decided of octets that are cut up, before anything is written: 14 and 16 to 20, or that they are read.
#![tactic(auto)]

ghost use Rattle.std.specs.Prelude.{◌≡◌, ◌≤◌, length};
ghost use Rattle.layout.specs.Layout.{most_multiframes};
ghost use Rattle.header_readings.specs.Stored.{pack_all};
ghost use Rattle.carrier.specs.Carrier.{pair_count};
ghost use Rattle.tables.specs.Lending.{lent_tables};
ghost use Rattle.deciding.specs.Deciding.{received_notes, whole_verdict};
ghost use Rattle.deciding.specs.Steps.{early_verdict, Kept};

use carrier::Multiframes;
use choices::Choices;
use layout::ReadingLayout;
use refusals::Reading;
use tables::Tables;

// 17, 18 and 19: what can be refused of settled common bits before any pair is judged.
fn early(common: u16, m: usize, index: usize, report: usize) -> Result<u16, Reading>
    requires { m ≤ most_multiframes }
    ensures { result ≡ early_verdict m index report common }
{
    if unfit::is_unfit(common) {
        return Err(Reading::Unfit);
    }
    if index < ReadingLayout::INDEX * m {
        return Err(Reading::IndexShort {
            needed: ReadingLayout::INDEX * m,
        });
    }
    if report < ReadingLayout::REPORT * m {
        return Err(Reading::ReportShort {
            needed: ReadingLayout::REPORT * m,
        });
    }
    Ok(common)
}

// decide gives the settled common bits, or 14 and 16 to 20, of octets that are cut up, by what the caller chose. Neither the index nor the
// report buffer is lent to it, only their lengths. An accepted reading has its headers and notes in headers and notes.
pub fn decide(
    multiframes: &Multiframes<'_>,
    choices: Choices,
    tables: &Tables<'_>,
    index: usize,
    report: usize,
    headers: &mut [u32],
    notes: &mut [u8],
) -> Result<u16, Reading>
    requires few { length multiframes.now.places ≤ most_multiframes }
    requires room { (length headers.old ≡ length multiframes.now.places) × (length notes.old ≡ pair_count multiframes.now.places) }
    ensures answer { result ≡ whole_verdict choices multiframes.now.octets (lent_tables tables.now) index report multiframes.now.places }
    ensures headers { Kept (pack_all multiframes.now.octets multiframes.now.places (length multiframes.now.places)) headers.new result }
    ensures notes { Kept (received_notes multiframes.now.octets multiframes.now.places (lent_tables tables.now)) notes.new result }
{
    let count = multiframes.count();
    if count == 0 {
        return Err(Reading::Empty {
            octets: multiframes.octets().len(),
        });
    }
    header_readings::read_headers(multiframes, headers);
    let Some(common) = settling::settle(headers, choices) else {
        return Err(Reading::Unsettled);
    };
    early(common, count, index, report)?;
    notes::note_crcs(multiframes, notes);
    notes::judge(multiframes, tables, notes);
    if bad_pairs::count_bad(notes) == notes.len() {
        return Err(Reading::AllBad);
    }
    Ok(common)
}
