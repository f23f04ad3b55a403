// dsrlist lists an utterance that comes in on standard input: a line of notes for each multiframe and a total, or the refusal with its
// number and place. The listing is made whole by `listing::put_listing`, which is proved; this only reads and writes octets.
#![tactic(auto)]

ghost use Rattle.std.specs.Prelude.{◌≡◌, ◌-◌, ◌≤◌, length, take};
ghost use Rattle.dsrlist.specs.Input.{Within};

use std::io;
use std::io::{Read, Write};

// The most octets that are listed; one more tells that there are more.
const LIMIT: usize = 65536;

// One read into buffer from place at on: how many octets came. What came before stays.
fn read_on<R: Read>(input: &mut R, buffer: &mut [u8], at: usize) -> io::Result<usize>
    requires { at ≤ length buffer.old }
    ensures within { Within (length buffer.old - at) result }
    ensures buffer_value { take at buffer.new ≡ take at buffer.old }
{
    input.read(&mut buffer[at..])
}

// Reads until the input ends, the buffer is full or a read fails: how many octets came.
fn read_all<R: Read>(input: &mut R, buffer: &mut [u8]) -> io::Result<usize>
    ensures { Within (length buffer.old) result }
{
    let mut at = 0;
    // A while, since how far one turn goes is known only after its read.
    while at < buffer.len() {
        let more = read_on(input, buffer, at)?;
        if more == 0 {
            break;
        }
        at += more;
    }
    Ok(at)
}

// Writes text to standard output. One that is closed or full loses the text and nothing else.
fn say(rt: &impl Print, text: &[u8]) {
    let _ = io::writer(rt).write_all(text);
}

// The listing, or nothing of a listing: an input that is longer than the limit, or that could not be read to its end, is not listed.
fn main(rt: HostRuntime) {
    let mut buffer = [0u8; LIMIT + 1];
    let mut input = rt.stdin();
    let Ok(n) = read_all(&mut input, &mut buffer) else {
        say(&rt, b"unreadable\n");
        return;
    };
    if LIMIT < n {
        say(&rt, b"too long\n");
        return;
    }
    let mut text = [0u8; listing::MOST];
    let end = listing::put_listing(&buffer[..n], &mut text);
    say(&rt, &text[..end]);
}
