// The last line of a listing, put behind the text in a lent buffer: the total, or the refusal.
#![tactic(auto)]

ghost use Rattle.std.specs.Prelude.{◌≡◌, ◌+◌, ◌≤◌, length};
ghost use Rattle.text.specs.Adds.{HasRoom, Adds};
ghost use Rattle.last_line.specs.LastLine.{most_total, total, refusal};

use reader::Summary;
use refusals::{Reading, Refusal};
use text::Text;

// TOTAL is the most octets of a total or a refusal: 42 of words, six numbers and a line feed.
pub const TOTAL: usize = 6 * text::NUMBER + 43;

// put_total puts the total: the success answer's fields, in their order. It asks for room.
pub fn put_total(s: Summary, text: &mut Text)
    requires { HasRoom most_total text.old }
    ensures { Adds (total s) text.old text.new }
{
    text.put_field(b"rate ", u64::from(s.settings.rate));
    text.put_field(b" type ", u64::from(s.settings.kind));
    text.put_field(b" multiframes ", s.multiframes as u64);
    text.put_field(b" speech ", s.speech as u64);
    text.put_field(b" bad ", s.bad as u64);
    text.put_field(b" end ", u64::from(s.end));
    text.put_words(b"\n");
}

// put_refusal puts the line of a refusal: its number and place. It asks for room.
pub fn put_refusal(r: Reading, text: &mut Text)
    requires { HasRoom most_total text.old }
    ensures { Adds (refusal r) text.old text.new }
{
    text.put_field(b"refused ", r.number() as u64);
    text.put_field(b" ", r.place() as u64);
    text.put_words(b"\n");
}
