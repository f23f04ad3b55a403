// The settings of an utterance: what every header of it says beside the counter.
#![tactic(auto)]

ghost use Rattle.std.specs.Prelude.{◌≡◌};
ghost use Rattle.settings.specs.Settings.{settings_right};

// The sample rate code (SampRate) and the front-end type (feType). They are numbers, since a caller's may be any octet: the writer refuses what
// is no setting, by its number 1, and an enum could not hold it.
#[derive(Clone, Copy)]
pub struct Settings {
    pub rate: u8,
    pub kind: u8,
}

impl Settings {
    // Whether an utterance may be written with these settings: rate 0, 1 or 3, type 0 or 1.
    pub fn is_right(self) -> bool
        ensures { result ≡ settings_right self }
    {
        matches!(self.rate, 0 | 1 | 3) && matches!(self.kind, 0 | 1)
    }
}
