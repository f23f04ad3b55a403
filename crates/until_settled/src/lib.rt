// Settings without the whole utterance (02, C-11): multiframes are read only until the settings are settled.
// `until_settled` in specs/ says what is answered, for all octets and every choice; the crate beginning reads so.
#![tactic(auto)]

use settings::Settings;

// What the beginning of an utterance tells: the settled settings, and how many multiframes were read for them.
#[derive(Clone, Copy)]
pub struct Beginning {
    pub settings: Settings,
    pub multiframes: usize,
}
