// Which settled common bits cannot be used.
#![tactic(auto)]

ghost use Rattle.std.specs.Prelude.{◌≡◌};
ghost use Rattle.unfit.specs.Unfit.{unfit};

use message::Fields;

// A sample rate code that is not defined.
const UNDEFINED_RATE: u8 = 2;

// is_unfit says whether settled common bits cannot be used, which is 17: their rate is 2, or any EXP is 1.
#[tactic(auto, unfolding(crate::specs::Unfit::unfit))]
pub fn is_unfit(common: u16) -> bool
    ensures { result ≡ unfit common }
{
    let fields = Fields::from(common);
    fields.settings.rate == UNDEFINED_RATE || fields.exp != 0
}
