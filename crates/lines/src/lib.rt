// The lines of multiframes in a listing, put behind the text in a lent buffer: of one, and of a whole report.
#![tactic(auto)]

ghost use Rattle.std.specs.Prelude.{◌≡◌, ◌+◌, ◌*◌, ◌≤◌, length};
ghost use Rattle.lists.specs.Rows.{joined};
ghost use Rattle.layout.specs.Layout.{report_octets};
ghost use Rattle.text.specs.Adds.{HasRoom, Adds};
ghost use Rattle.lines.specs.Lines.{most_pairs, most_line, pair_text, line, line_of};

use layout::ReadingLayout;
use text::Text;

// LINE is the most octets of a multiframe's line: the notes, a space and a line feed.
pub const LINE: usize = text::NOTE * ReadingLayout::REPORT + 2;

// The twelve pair notes, one behind the other.
fn put_pairs(notes: &[u8], text: &mut Text)
    requires { (length notes.now ≡ report_octets) × HasRoom most_pairs text.old }
    ensures put { Adds (pair_text notes.now) text.old text.new }
    ensures upper_bound { text.new.end ≤ text.old.end + most_pairs }
{
    for note in &notes[1..] {
        text.put_note(*note);
    }
}

// put_line puts the line of a multiframe, of its thirteen octets of the report: header note, space, twelve pair notes. It asks for them
// and for room.
pub fn put_line(notes: &[u8], text: &mut Text)
    requires { (length notes.now ≡ report_octets) × HasRoom most_line text.old }
    ensures put { Adds (line notes.now) text.old text.new }
    ensures upper_bound { text.new.end ≤ text.old.end + most_line }
{
    text.put_note(notes[0]);
    text.put_words(b" ");
    put_pairs(notes, text);
    text.put_words(b"\n");
}

// put_lines puts the lines of the first multiframes of a report, which may have room for more. It asks for them and for room.
pub fn put_lines(report: &[u8], multiframes: usize, text: &mut Text)
    requires { (report_octets * multiframes ≤ length report.now) × HasRoom (most_line * multiframes) text.old }
    ensures put { Adds (joined (line_of report.now) multiframes) text.old text.new }
    ensures upper_bound { text.new.end ≤ text.old.end + most_line * multiframes }
{
    for notes in report.chunks_exact(ReadingLayout::REPORT).take(multiframes) {
        put_line(notes, text);
    }
}
