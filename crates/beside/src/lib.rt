// What a listing and the lines of the rooms have in common: a text read with a budget beside it, or with its own, and the line of
// a refusal.
#![tactic(auto)]

ghost use Rattle.std.specs.Prelude.{◌≡◌};
ghost use Rattle.beside.specs.Listed.{ReadInto, wrote};
ghost use Rattle.rules.specs.Listing.{lines_for};
ghost use Rattle.rules.specs.Refusals.{refused_at, written};

use reader::read;
use records::budget_in_range;
use rules::{Refusal, Refused, Table};

// The one line of a refusal, where there is room for it.
pub fn list_refusal(refused: Refused, out: &mut [u8]) -> Result<usize, Refused>
    ensures { wrote result out.new ≡ written (lines_for (refused_at refused.why refused.line)) out.old }
{
    let numbers = [u64::from(refused.why), refused.line];
    if out.len() < digits::line_length(&numbers) {
        return Err(Refusal::Room.at(0));
    }
    Ok(digits::put_line(out, 0, b'R', &numbers))
}

// Reads the table that a text is planned as: the one that it holds, and in its T the budget beside the text, where there is one. Or
// else the text's own refusal, and then that of the budget. The table is put into a lent one, since an answer that holds it is copied in
// each function that hands it on, and those copies were a fifth of a listing's stack.
#[inline(never)]
pub fn read_with(table: &mut Table, text: &[u8], beside: Option<u64>) -> Result<(), Refused>
    ensures { ReadInto beside text.now table.new result }
{
    *table = read(text)?;
    table.budget = beside.unwrap_or(table.budget);
    if !budget_in_range(table.budget) {
        return Err(Refusal::Range.at(1));
    }
    Ok(())
}
