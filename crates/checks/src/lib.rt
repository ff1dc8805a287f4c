// The check of a whole table: its records, one after the other in the order of their lines, and the counts.
#![tactic(auto)]

ghost use Rattle.std.specs.Prelude.{◌≡◌, cond, Ok, Err, Some};
ghost use Rattle.checks.specs.Left.{ComesNext, Few, Whole};
ghost use Rattle.checks.specs.Verdict.{CheckedInto};
ghost use Rattle.columns.specs.Columns.{no_jobs};

use columns::Columns;
use records::Standing;
use rules::{MOST_HOLDS, MOST_JOBS, MOST_SPEEDS, Refusal, Refused, Table};
use text::Parsed;

// Where a record stands in a table: the letter, and the place among those of its letter.
#[derive(Clone, Copy)]
pub enum Spot {
    Clock,
    Speed(usize),
    Job(usize),
    Hold(usize),
}

// A record that has a place, or else the refusal of the first beyond the places.
fn placed(spot: Spot, has_place: bool, beyond: Refusal) -> Result<Option<Spot>, Refusal>
    ensures { result ≡ cond has_place (Ok (Some spot)) (Err beyond) }
{
    has_place.then_some(Some(spot)).ok_or(beyond)
}

// What comes behind the records that a state stands for: a record, or none any more; or the refusal where there is no F, and of
// the first record beyond the places. No count is added to another, so that they may be any.
fn next_of(before: Standing, table: &Table) -> Result<Option<Spot>, Refusal>
    requires { Few before }
    ensures { Whole table.now → ComesNext table.now before result }
{
    if !before.begun {
        return Ok(Some(Spot::Clock));
    }
    if table.speed_count == 0 {
        return Err(Refusal::Order);
    }
    let speeds = before.speeds;
    if speeds < table.speed_count {
        return placed(Spot::Speed(speeds), speeds < MOST_SPEEDS, Refusal::TooMany);
    }
    let jobs = before.jobs;
    if jobs < table.job_count {
        return placed(Spot::Job(jobs), jobs < MOST_JOBS, Refusal::TooMany);
    }
    let holds = before.holds;
    if holds < table.hold_count {
        return placed(Spot::Hold(holds), holds < MOST_HOLDS, Refusal::Order);
    }
    Ok(None)
}

// Whether a table's records are valid and within its places, or else the first refusal, 2 to 7, and its line. The jobs are put, as
// they are accepted, into lent columns of zeros: who plans the table goes on with them. So a table is gone through once.
pub fn check_table(columns: &mut Columns, table: &Table) -> Result<(), Refused>
    requires { columns.old ≡ no_jobs }
    ensures { CheckedInto table.now columns.new result }
{
    let mut before = Standing::none();
    let mut line: u64 = 1;
    // a `loop`: only what has been accepted says which record comes next
    loop {
        let spot = match next_of(before, table) {
            Ok(Some(spot)) => spot,
            Ok(None) => return Ok(()),
            Err(why) => return Err(why.at(line)),
        };
        let parsed = match spot {
            Spot::Clock => Parsed::Clock(table.clock, table.budget),
            Spot::Speed(n) => Parsed::Speed(table.speeds[n]),
            Spot::Job(n) => Parsed::Job(table.jobs[n]),
            Spot::Hold(n) => Parsed::Hold(table.holds[n]),
        };
        if let Err(why) = lines::judge_record(before, parsed, &table.jobs[..before.jobs]) {
            return Err(why.at(line));
        }
        let n = before.jobs;
        before = lines::standing_after(before, parsed);
        line += 1;
        if let Parsed::Job(job) = parsed {
            columns.put(n, job);
        }
    }
}
