// A text that is read, and written again.
use crate::report::{put, put_numbers, put_refusal, put_written};
use rules::Table;

// A byte that no text has.
const MARK: u8 = b'.';

// Room for the longest text.
const MOST_WRITTEN: usize = 4096;

// How many places of the buffer still have their mark.
fn marks(buffer: &[u8]) -> usize {
    buffer.iter().filter(|byte| **byte == MARK).count()
}

// Writes a table: the answer, and how many marks are left.
pub(crate) fn write(out: &impl Print, table: Table) {
    let mut buffer = [MARK; MOST_WRITTEN];
    put_written(out, writer::write(table, &mut buffer));
    put_numbers(out, b"marks", &[marks(&buffer) as u64]);
}

// Whether the text that is written is the one that was read.
fn put_whether_same(out: &impl Print, table: Table, text: &[u8]) {
    let mut buffer = [MARK; MOST_WRITTEN];
    let Ok(count) = writer::write(table, &mut buffer) else {
        return;
    };
    if count == text.len() && buffer.starts_with(text) {
        put(out, b"same bytes\n");
    } else {
        put(out, b"other bytes\n");
    }
}

// What reading answers, the table's T line and counts, and the table written again. A refused text has the table without records,
// which the writer refuses.
pub(crate) fn read_and_write(out: &impl Print, text: &[u8]) {
    let read = reader::read(text);
    match read {
        Ok(_) => put(out, b"read\n"),
        Err(refused) => put_refusal(out, refused),
    }
    let table = read.unwrap_or(Table::without_records());
    put_numbers(out, b"T", &[table.clock, table.budget]);
    let counts = [
        table.speed_count as u64,
        table.job_count as u64,
        table.hold_count as u64,
    ];
    put_numbers(out, b"counts", &counts);
    write(out, table);
    put_whether_same(out, table, text);
}
