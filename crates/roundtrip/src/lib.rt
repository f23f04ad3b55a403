// Writing and reading back in one call, for whoever checks a terminal before it leaves: the theorem "reads back" at work.
#![tactic(auto)]

ghost use Rattle.std.specs.Prelude.{◌≡◌};
ghost use Rattle.tables.specs.Tables.{tables_of};
ghost use Rattle.roundtrip.specs.Trip.{made, trip, ComesBack, Unread, Unwritten};

use choices::Choices;
use reader::Summary;
use settings::Settings;

// Why an utterance does not come back: refused by the writer, or refused by the reader.
#[derive(Clone, Copy)]
pub enum Failure {
    NotWritten(refusals::Writing),
    NotRead(refusals::Reading),
}

// write_and_read writes an utterance into the front of out and reads the octets written back into index and report. Whatever the writer
// accepts comes back whole, with the same settings, its frames and zeros after them in index and no note in report, if the tables are 01's
// and there is room: an utterance of one multiframe too, since one header alone settles here (02, C-20). What is read was just written, and
// no link lies between. If the reader refuses, out holds the image, and index and report are as they came; if the writer refuses, all three are.
pub fn write_and_read(
    settings: Settings,
    indices: &[u8],
    codebook: &[i32],
    thresholds: &[i32],
    out: &mut [u8],
    index: &mut [u8],
    report: &mut [u8],
) -> Result<Summary, Failure>
    ensures all { made result out.new index.new report.new
        ≡ trip settings indices.now (tables_of codebook.now thresholds.now) out.old index.old report.old }
    ensures back { ComesBack settings indices.now (tables_of codebook.now thresholds.now) out.old index.old report.old
        (made result out.new index.new report.new) }
    ensures unread { Unread settings indices.now (tables_of codebook.now thresholds.now) out.old index.old report.old
        (made result out.new index.new report.new) }
    ensures unwritten { Unwritten settings indices.now (tables_of codebook.now thresholds.now) out.old index.old report.old
        (made result out.new index.new report.new) }
{
    let choices = Choices {
        one_header_settles: true,
    };
    let octets = writer::write(settings, indices, out).map_err(Failure::NotWritten)?;
    reader::read(&out[..octets], choices, codebook, thresholds, index, report).map_err(
        Failure::NotRead,
    )
}
