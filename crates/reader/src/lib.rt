// Reads a table text: one line after the other, each judged after those accepted so far.
#![tactic(auto)]

ghost use Rattle.std.specs.Prelude.{◌≡◌};
ghost use Rattle.rules.specs.Answers.{reading_says};
ghost use Rattle.rules.specs.Refusals.{reading};

use records::Standing;
use rules::{Refusal, Refused, Table};
use text::{Cursor, Parsed};

// The table of a text, or the refusal of its first bad line.
pub fn read(text: &[u8]) -> Result<Table, Refused>
    ensures { reading_says result ≡ reading text.now }
{
    let mut table = Table::without_records();
    let mut before = Standing::none();
    let mut place = Cursor { at: 0, line: 1 };
    // a `while`: each line says where the next one begins
    while place.at < text.len() {
        let line = lines::accept_line(text, place, before, &table.jobs[..before.jobs])?;
        let n = lines::count_of(before, line.parsed);
        before = lines::standing_after(before, line.parsed);
        place = line.next;
        match line.parsed {
            Parsed::Clock(clock, budget) => {
                table.clock = clock;
                table.budget = budget;
            }
            Parsed::Speed(speed) => table.speeds[n] = speed,
            Parsed::Job(job) => table.jobs[n] = job,
            Parsed::Hold(hold) => table.holds[n] = hold,
        }
    }
    if before.speeds == 0 {
        return Err(Refusal::Order.at(place.line));
    }
    table.speed_count = before.speeds;
    table.job_count = before.jobs;
    table.hold_count = before.holds;
    Ok(table)
}
