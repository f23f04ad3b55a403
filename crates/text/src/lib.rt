// Text in a lent buffer: words, and numbers in decimal, put one behind the other. Each method asks for room.
#![tactic(auto)]

ghost use Rattle.std.specs.Prelude.{◌≡◌, ◌∷◌, [], ◌+◌, ◌<◌, ◌≤◌, length};
ghost use Rattle.text.specs.Text.{note_digits, number_digits, decimal, field};
ghost use Rattle.text.specs.Text.{digit as Text·digit};
ghost use Rattle.text.specs.Adds.{HasRoom, Adds};

// The most digits of a note and of any number.
pub const NOTE: usize = 3;

pub const NUMBER: usize = 20;

fn digit(d: u64) -> u8
    requires { d < 10 }
    ensures { result ≡ Text·digit d }
{
    b'0' + d as u8
}

// The octets lent for text, and where the text that was put ends.
#[derive(Drop)]
pub struct Text<'a> {
    pub room: &'a mut [u8],
    pub end: usize,
}

impl<'a> Text<'a> {
    // put_octet puts one octet.
    fn put_octet(&mut self, octet: u8)
        requires { HasRoom 1 self.old }
        ensures { Adds (octet ∷ []) self.old self.new }
    {
        self.room[self.end] = octet;
        self.end += 1;
    }

    // put_number puts n in decimal, by digits of its own: what `write!` promises holds only of an Ok, and nothing says that it gives one
    // where there is room.
    pub fn put_number(&mut self, n: u64)
        requires { HasRoom (length (decimal n)) self.old }
        ensures { Adds (decimal n) self.old self.new }
    {
        if n < 10 {
            self.put_octet(digit(n));
            return;
        }
        self.put_number(n / 10);
        self.put_octet(digit(n % 10));
    }

    // put_words puts words as they are.
    pub fn put_words(&mut self, words: &[u8])
        requires { HasRoom (length words.now) self.old }
        ensures { Adds words.now self.old self.new }
    {
        let end = self.end + words.len();
        self.room[self.end..end].copy_from_slice(words);
        self.end = end;
    }

    // put_note puts a note in decimal.
    pub fn put_note(&mut self, note: u8)
        requires { HasRoom note_digits self.old }
        ensures put { Adds (decimal note) self.old self.new }
        ensures upper_bound { self.new.end ≤ self.old.end + note_digits }
    {
        self.put_number(u64::from(note));
    }

    // put_field puts words and a number.
    pub fn put_field(&mut self, words: &[u8], n: u64)
        requires { HasRoom (length words.now + number_digits) self.old }
        ensures put { Adds (field words.now n) self.old self.new }
        ensures upper_bound { self.new.end ≤ self.old.end + length words.now + number_digits }
    {
        self.put_words(words);
        self.put_number(n);
    }
}
