// The tables as code lends them, codebook and thresholds together.
#![tactic(auto)]

ghost use Rattle.std.specs.Prelude.{◌≡◌, ◌<◌};
ghost use Rattle.layout.specs.Layout.{codebook_numbers, threshold_numbers};
ghost use Rattle.tables.specs.Tables.{at, tables_of, RightSizes};

// A codebook and its thresholds, of 01's sizes, 1,280 and 14 numbers: lent together, and taken together by all that judges pairs.
// A contract speaks of them as the definitions' record of both, `lent_tables`. A ghost field holds the sizes and no Model, since tables can be copied.
#[derive(Clone, Copy)]
pub struct Tables<'a> {
    codebook: &'a [i32],
    thresholds: &'a [i32],
    ghost sized: { RightSizes (tables_of codebook.now thresholds.now) },
}

impl<'a> Tables<'a> {
    // new lends a codebook and thresholds that the caller knows to be of these sizes; admit tests them, and the signs too.
    pub fn new(codebook: &'a [i32], thresholds: &'a [i32]) -> Tables<'a>
        requires { RightSizes (tables_of codebook.now thresholds.now) }
        ensures { tables_of result.codebook.now result.thresholds.now ≡ tables_of codebook.now thresholds.now }
    {
        Tables {
            codebook,
            thresholds,
        }
    }

    // number gives the number at a place of the codebook.
    pub fn number(&self, i: usize) -> i32
        requires { i < codebook_numbers }
        ensures { result ≡ at self.now.codebook.now i }
    {
        self.codebook[i]
    }

    // threshold gives the threshold at a place.
    pub fn threshold(&self, k: usize) -> i32
        requires { k < threshold_numbers }
        ensures { result ≡ at self.now.thresholds.now k }
    {
        self.thresholds[k]
    }
}
