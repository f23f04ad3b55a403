// Which tables, codebook and thresholds, a reading may use, and what turns the others away before anything else is looked at.
#![tactic(auto)]

ghost use Rattle.std.specs.Prelude.{◌≡◌, position};
ghost use Rattle.tables.specs.Tables.{negative, sizes_right, admission, without_tables, tables_of};
ghost use Rattle.tables.specs.Lending.{admitted_as};

use layout::ReadingLayout;
pub use lending::Tables;
use refusals::Reading;

mod lending;

// Have the tables 01's sizes, 1,280 and 14 numbers?
#[tactic(auto, unfolding(crate::specs::Tables::sizes_right))]
fn are_sized(codebook: &[i32], thresholds: &[i32]) -> bool
    ensures { result ≡ sizes_right (tables_of codebook.now thresholds.now) }
{
    codebook.len() == ReadingLayout::CODEBOOK && thresholds.len() == ReadingLayout::THRESHOLDS
}

// The place of the first negative threshold, if there is one.
fn first_negative(thresholds: &[i32]) -> Option<usize>
    ensures { result ≡ position negative thresholds.now }
{
    thresholds.iter().position(|threshold| *threshold < 0)
}

// admit gives the tables if a reading may use them: refusal 11 for wrong sizes, then 10 for the first negative threshold, which every index
// pair of its codebook would exceed (02, C-12).
pub fn admit<'a>(codebook: &'a [i32], thresholds: &'a [i32]) -> Result<Tables<'a>, Reading>
    ensures { admitted_as result ≡ admission (tables_of codebook.now thresholds.now) }
{
    if !are_sized(codebook, thresholds) {
        return Err(Reading::WrongTables);
    }
    if let Some(threshold) = first_negative(thresholds) {
        return Err(Reading::NegativeThreshold { threshold });
    }
    Ok(Tables::new(codebook, thresholds))
}

// admission gives what becomes of the tables, without the tables: an answer that can be copied, and that outlives the loan.
pub fn admission(codebook: &[i32], thresholds: &[i32]) -> Result<(), Reading>
    ensures { result ≡ without_tables (admission (tables_of codebook.now thresholds.now)) }
{
    admit(codebook, thresholds)?;
    Ok(())
}
