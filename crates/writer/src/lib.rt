// Writes a table as text into a lent buffer: first the check of the records, then the length of the text and the room, then
// the lines, one after the other by their index.
#![tactic(auto)]

ghost use Rattle.std.specs.Prelude.{[], ◌∷◌, ◌≡◌, ◌≤◌, ◌<◌, length, take};
ghost use Rattle.grammar.specs.Put.{put};
ghost use Rattle.rules.specs.TableText.{lined, records_of, text_of};
ghost use Rattle.writer.specs.Lines.{Checked, Filled, RowAt, SpotAt};
ghost use Rattle.writer.specs.Promise.{WrittenAs};

use checks::{Spot, check_table};
use columns::Columns;
use rules::{MOST_FIELDS, Refusal, Refused, Table};

// A line's letter and its numbers: the first `count` of those here, since lines have two or six of them and there is no heap.
#[derive(Clone, Copy)]
struct Row {
    letter: u8,
    count: usize,
    numbers: [u64; MOST_FIELDS],
}

impl Row {
    // A line of two numbers.
    fn of_two(letter: u8, first: u64, second: u64) -> Row
        ensures { result ≡ record { letter = letter; count = 2; numbers = first ∷ second ∷ 0 ∷ 0 ∷ 0 ∷ 0 ∷ [] } }
    {
        Row {
            letter,
            count: 2,
            numbers: [first, second, 0, 0, 0, 0],
        }
    }

    // The numbers of the line.
    fn filled(&self) -> &[u64]
        requires { Filled self.now }
        ensures { result.now ≡ take self.now.count self.now.numbers }
    {
        &self.numbers[..self.count]
    }
}

// How many lines the text has.
#[tactic(auto, using(crate::proofs::Lines::lines_counted))]
fn line_count(table: &Table) -> usize
    requires { Checked table.now }
    ensures { result ≡ length (lined (records_of table.now)) }
{
    1 + table.speed_count + table.job_count + table.hold_count
}

// Which record stands on line i, counted from 0.
#[tactic(auto, using(crate::proofs::Lines::clock_stands, crate::proofs::Lines::speed_stands, crate::proofs::Lines::job_stands, crate::proofs::Lines::hold_stands, crate::proofs::Lines::lines_counted))]
fn spot_at(table: &Table, i: usize) -> Spot
    requires { Checked table.now × (i < length (lined (records_of table.now))) }
    ensures { SpotAt table.now i result }
{
    if i == 0 {
        return Spot::Clock;
    }
    let behind_clock = i - 1;
    if behind_clock < table.speed_count {
        return Spot::Speed(behind_clock);
    }
    let behind_speeds = behind_clock - table.speed_count;
    if behind_speeds < table.job_count {
        return Spot::Job(behind_speeds);
    }
    Spot::Hold(behind_speeds - table.job_count)
}

// What is written on line i.
#[tactic(auto, unfolding(rules::specs::TableText::record_text))]
fn row_at(table: &Table, i: usize) -> Row
    requires { Checked table.now × (i < length (lined (records_of table.now))) }
    ensures { RowAt table.now i result }
{
    match spot_at(table, i) {
        Spot::Clock => Row::of_two(b'T', table.clock, table.budget),
        Spot::Speed(n) => Row::of_two(b'F', table.speeds[n].mhz, table.speeds[n].cost),
        Spot::Job(n) => {
            let job = table.jobs[n];
            Row {
                letter: b'J',
                count: 6,
                numbers: [
                    job.number,
                    job.cycles,
                    job.worth,
                    job.critical,
                    job.termination,
                    job.request,
                ],
            }
        }
        Spot::Hold(n) => Row::of_two(b'H', table.holds[n].resource, table.holds[n].holder),
    }
}

// How many bytes the text has.
#[tactic(auto, using(crate::proofs::Lines::text_from_first))]
fn text_length(table: &Table) -> usize
    requires { Checked table.now }
    ensures { result ≡ length (text_of (records_of table.now)) }
{
    let mut bytes: usize = 0;
    for counted in 0..line_count(table) {
        bytes += digits::line_length(row_at(table, counted).filled());
    }
    bytes
}

// Writes the text at the front of the buffer, and hands back its length.
fn put_text(table: &Table, out: &mut [u8]) -> usize
    requires { Checked table.now × (length (text_of (records_of table.now)) ≤ length out.old) }
    ensures { (result ≡ length (text_of (records_of table.now)))
        × (out.new ≡ put out.old 0 (text_of (records_of table.now))) }
{
    let mut next = 0;
    for written in 0..line_count(table) {
        let row = row_at(table, written);
        next = digits::put_line(out, next, row.letter, row.filled());
    }
    next
}

// Writes a table's text to the front of a lent buffer and answers its length; or else changes nothing and answers the first
// refusal of its records, or that there is no room.
pub fn write(table: Table, out: &mut [u8]) -> Result<usize, Refused>
    ensures { WrittenAs table out.old out.new result }
{
    check_table(&mut Columns::new(), &table)?;
    if out.len() < text_length(&table) {
        return Err(Refusal::Room.at(0));
    }
    Ok(put_text(&table, out))
}
