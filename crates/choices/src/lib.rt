// What a caller may choose of a reading (02): each choice by its name, and the number by which a caller from outside names them.
#![tactic(auto)]

ghost use Rattle.std.specs.Prelude.{◌≡◌};
ghost use Rattle.choices.specs.Choices.{asked};

// A choice that is not asked for is false: a reading by default is one with every choice false.
#[derive(Clone, Copy, Default)]
pub struct Choices {
    // An only multiframe whose header is itself a codeword settles the settings (01's rule); by default it does not (C-20).
    pub one_header_settles: bool,
}

// The numbers by which C and Rust ask.
const BY_DEFAULT: u64 = 0;

const ONE_HEADER_SETTLES: u64 = 1;

// asked_by gives the choices that a number names. For one that names none it gives none, and takes it for no other: a choice of a later
// version is never left out without a word. An option and no TryFrom: its error would have nothing in it.
#[tactic(auto, unfolding(crate::specs::Choices::asked))]
pub fn asked_by(number: u64) -> Option<Choices>
    ensures { result ≡ asked number }
{
    match number {
        BY_DEFAULT => Some(Choices::default()),
        ONE_HEADER_SETTLES => Some(Choices {
            one_header_settles: true,
        }),
        _ => None,
    }
}
