// The panel's call, with marked buffers that are longer than it needs, and with several budgets beside a table.
ghost use Rattle.std.specs.Prelude.{◌≤◌};

use crate::plan::{MARK, MOST_BUDGET, PLACES};
use crate::report::{put_numbers, put_part_name, put_refusal};
use rules::{Panel, Refused, Table};

// How many turns there were, and the room that is left at the end.
fn put_panel(out: &impl Print, panel: Result<Panel, Refused>) {
    match panel {
        Ok(panel) => put_numbers(out, b"left", &[panel.turns as u64, panel.room]),
        Err(refused) => put_refusal(out, refused),
    }
}

// Both buffers, whole.
fn put_rooms(out: &impl Print, turns: &[u64; PLACES], rooms: &[u64; PLACES]) {
    put_numbers(out, b"turns", turns);
    put_numbers(out, b"rooms", rooms);
}

// `rooms`, with so many places of both buffers; what is printed are all of them.
fn rooms_places(out: &impl Print, table: Table, budget: u64, turn_places: usize, room_places: usize)
    requires { (turn_places ≤ 70) × (room_places ≤ 70) }
{
    let mut turns = [MARK; PLACES];
    let mut rooms = [MARK; PLACES];
    let panel = planner::rooms(
        table,
        budget,
        &mut turns[..turn_places],
        &mut rooms[..room_places],
    );
    put_panel(out, panel);
    put_rooms(out, &turns, &rooms);
}

// The text read once, and the rooms of its table with several budgets beside it. A refused text has the table without records,
// which is refused as well.
pub(crate) fn after_each(out: &impl Print, text: &[u8]) {
    let table = reader::read(text).unwrap_or(Table::without_records());
    put_part_name(out, b"its own budget");
    rooms_places(out, table, table.budget, PLACES, PLACES);
    put_part_name(out, b"budget 0, 64 and 64 places");
    rooms_places(out, table, 0, 64, 64);
    put_part_name(out, b"the most budget, 70 and 64 places");
    rooms_places(out, table, MOST_BUDGET, PLACES, 64);
    put_part_name(out, b"one more; then also 63 and 70 places, 70 and 63");
    rooms_places(out, table, MOST_BUDGET + 1, PLACES, PLACES);
    rooms_places(out, table, MOST_BUDGET + 1, 63, PLACES);
    rooms_places(out, table, MOST_BUDGET + 1, PLACES, 63);
}
