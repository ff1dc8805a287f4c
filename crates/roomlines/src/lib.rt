// The lines of ./plan --rooms, into a lent buffer: for each turn its number, its job, the room after it and the fate that it gave.
#![tactic(auto)]

ghost use Rattle.std.specs.Prelude.{◌≡◌, ◌≤◌, length};
ghost use Rattle.beside.specs.Listed.{Listable, taken_for, wrote};
ghost use Rattle.digits.specs.Rows.{tab_rows};
ghost use Rattle.roomlines.specs.Promises.{RoomRows, TurnPlaces, most_row_numbers, row_fields};
ghost use Rattle.rules.specs.Refusals.{taken, written};
ghost use Rattle.rules.specs.Rooms.{room_lines_for, room_listing, room_listing_with};
ghost use Rattle.rules.specs.TableText.{records_of};

use beside::{list_refusal, read_with};
use chains::NO_FATE;
use checks::check_table;
use columns::Columns;
use plans::{course_of, terms_of};
use rules::{MOST_JOBS, Refusal, Refused, Table};
use trials::Plan;

// A line has four numbers, and there is at most one for each job.
const ROW_FIELDS: usize = 4;

const MOST_ROW_NUMBERS: usize = ROW_FIELDS * MOST_JOBS;

// The numbers of the turns' lines, by the places of their jobs and the rooms after them, and how many they are. The fates are those
// that the course leaves: at the place of a job that had a turn it is the fate of that turn.
fn room_rows(
    order: &[u64],
    rooms: &[u64; MOST_JOBS],
    number: &[u64; MOST_JOBS],
    fates: &[u64; MOST_JOBS],
    rows: &mut [u64; MOST_ROW_NUMBERS],
) -> usize
    requires { TurnPlaces order.now }
    ensures { RoomRows order.now rooms.now number.now fates.now rows.new result }
{
    let mut filled = 0;
    for (turn, &noted) in order.iter().enumerate() {
        let place = noted as usize;
        rows[filled] = turn as u64 + 1;
        rows[filled + 1] = number[place];
        rows[filled + 2] = rooms[turn];
        rows[filled + 3] = fates[place];
        filled += ROW_FIELDS;
    }
    filled
}

// The tab lines of these numbers, where there is room for them.
fn list_rows(rows: &[u64], out: &mut [u8]) -> Result<usize, Refused>
    requires { length rows.now ≤ most_row_numbers }
    ensures { wrote result out.new ≡ written (tab_rows row_fields rows.now) out.old }
{
    if out.len() < digits::tab_rows_length(rows, ROW_FIELDS) {
        return Err(Refusal::Room.at(0));
    }
    Ok(digits::put_rows(out, 0, None, rows, ROW_FIELDS))
}

// The lines of a valid table, where there is room for them. The check is there to make the columns: it refuses nothing.
#[inline(never)]
fn list_table(table: &Table, out: &mut [u8]) -> Result<usize, Refused>
    requires { Listable table.now }
    ensures { wrote result out.new ≡ written (room_lines_for (taken (records_of table.now))) out.old }
{
    let mut jobs = Columns::new();
    let _ = check_table(&mut jobs, table);
    let terms = terms_of(table, table.budget);
    let holds = &table.holds[..table.hold_count];
    let mut plan = Plan::empty();
    let mut fates = [NO_FATE; MOST_JOBS];
    let mut order = [0; MOST_JOBS];
    let mut rooms = [0; MOST_JOBS];
    let turns = course_of(
        &mut plan, &mut fates, holds, &jobs, terms, &mut order, &mut rooms,
    );
    let mut rows = [0; MOST_ROW_NUMBERS];
    let end = room_rows(&order[..turns], &rooms, &jobs.number, &fates, &mut rows);
    list_rows(&rows[..end], out)
}

// The lines of a text, as its table's, or the line of its listing where it is refused.
fn list_text(text: &[u8], beside: Option<u64>, out: &mut [u8]) -> Result<usize, Refused>
    ensures { wrote result out.new ≡ written (room_lines_for (taken_for beside text.now)) out.old }
{
    let mut table = Table::without_records();
    match read_with(&mut table, text, beside) {
        Ok(()) => list_table(&table, out),
        Err(refused) => list_refusal(refused, out),
    }
}

// What the program prints for a text when it is asked for the rooms, with the text's own budget, at the front of a lent buffer,
// and its length; or else nothing is changed, and the answer is that there is no room. A refused text has the line of its
// listing.
#[tactic(auto, unfolding(rules::specs::Rooms::room_listing))]
pub fn list_rooms(text: &[u8], out: &mut [u8]) -> Result<usize, Refused>
    ensures { wrote result out.new ≡ written (room_listing text.now) out.old }
{
    list_text(text, None, out)
}

// The same with a budget beside the text: the text's own refusal first, then that of the budget.
#[tactic(auto, unfolding(rules::specs::Rooms::room_listing_with))]
pub fn list_rooms_with_budget(text: &[u8], budget: u64, out: &mut [u8]) -> Result<usize, Refused>
    ensures { wrote result out.new ≡ written (room_listing_with text.now budget) out.old }
{
    list_text(text, Some(budget), out)
}
