// The report of a reading: for each multiframe a header note, and behind it the notes of its twelve pairs.
#![tactic(auto)]

ghost use Rattle.std.specs.Prelude.{◌≡◌, length, get_or};
ghost use Prim.Native.Nat.{◌*◌, ◌<◌};
ghost use Rattle.lists.specs.Parts.{over};
ghost use Rattle.layout.specs.Layout.{report_octets};
ghost use Rattle.header_readings.specs.Stored.{Mended, opened};
ghost use Rattle.report.specs.Sections.{Reportable, section, sections};

use layout::{Multiframe, MultiframeLayout, ReadingLayout};

// Multiframe k's thirteen octets go to the report.
fn put_section(headers: &[u32], notes: &[u8], common: u16, report: &mut [u8], k: Multiframe)
    requires k_in_bounds { (k.0 < length headers.now) × Reportable headers.now notes.now report.old }
    requires mended { Mended (opened (get_or headers.now k.0 0)) }
    ensures { report.new ≡ over report.old (report_octets * k.0) report_octets (section headers.now notes.now common k.0) }
{
    let at = ReadingLayout::REPORT * k.0;
    let first = k.first_pair().0;
    report[at] = header_notes::note_at(headers, k, common);
    let pairs = &mut report[at + 1..at + 1 + MultiframeLayout::PAIRS];
    pairs.copy_from_slice(&notes[first..first + MultiframeLayout::PAIRS]);
}

// Headers, notes and common bits go together here alone, and to one place: a struct of the three would be longer than it saves.
// put_report puts the report's part to the front of report; the rest of it stays. It asks for headers as read_headers stores them.
pub fn put_report(headers: &[u32], notes: &[u8], common: u16, report: &mut [u8])
    requires reportable { Reportable headers.now notes.now report.old }
    requires mended { (k : Prim.Native.Nat.ℕ) → k < length headers.now → Mended (opened (get_or headers.now k 0)) }
    ensures { report.new ≡ over report.old 0 (report_octets * length headers.now)
        (sections headers.now notes.now common (length headers.now)) }
{
    for k in 0..headers.len() {
        put_section(headers, notes, common, report, Multiframe(k));
    }
}
