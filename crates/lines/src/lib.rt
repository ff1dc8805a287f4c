// One line of a table text, judged after the lines accepted so far.
#![tactic(auto)]

ghost use Rattle.std.specs.Prelude.{◌≡◌, ◌≤◌};
ghost use Rattle.lines.specs.Step.{LineAccepted, Noted, after_parsed, count_of, fault_in};
ghost use Rattle.records.specs.Faults.{fault_says};
ghost use Rattle.rules.specs.Refusals.{Before};
ghost use Rattle.rules.specs.TableText.{most_holds, most_jobs, most_speeds};
ghost use Rattle.text.specs.Lines.{item_of};

use records::Standing;
use rules::{Job, Refusal, Refused};
use text::{Cursor, Line, Parsed};

// The lowest refusal of a record, 2 to 7, after the lines accepted so far, whose jobs these are.
#[inline(always)]
pub fn judge_record(before: Standing, parsed: Parsed, jobs: &[Job]) -> Result<(), Refusal>
    ensures { (b : Before) → Noted b before jobs.now → fault_says result ≡ fault_in b (item_of parsed) }
{
    match parsed {
        Parsed::Clock(clock, budget) => before.judge_clock(clock, budget),
        Parsed::Speed(speed) => before.judge_speed(speed),
        Parsed::Job(job) => before.judge_job(job),
        Parsed::Hold(hold) => {
            let request = records::request_of(jobs, hold.holder);
            before.judge_hold(hold, request)
        }
    }
}

// One line: its record, if it is accepted after the lines accepted so far, or the line's refusal.
pub fn accept_line(
    text: &[u8],
    place: Cursor,
    before: Standing,
    jobs: &[Job],
) -> Result<Line, Refused>
    ensures { (b : Before) → Noted b before jobs.now → LineAccepted text.now place b result }
{
    let line = text::record_at(text, place)?;
    if let Err(why) = judge_record(before, line.parsed, jobs) {
        return Err(why.at(place.line));
    }
    Ok(line)
}

// How many records of its letter stand before what a line holds: where it is stored.
pub fn count_of(before: Standing, parsed: Parsed) -> usize
    ensures { result ≡ count_of before parsed }
{
    match parsed {
        Parsed::Clock(_, _) => 0,
        Parsed::Speed(_) => before.speeds,
        Parsed::Job(_) => before.jobs,
        Parsed::Hold(_) => before.holds,
    }
}

// The state after what a line holds.
pub fn standing_after(before: Standing, parsed: Parsed) -> Standing
    requires { (before.speeds ≤ most_speeds) × (before.jobs ≤ most_jobs) × (before.holds ≤ most_holds) }
    ensures { result ≡ after_parsed before parsed }
{
    match parsed {
        Parsed::Clock(_, _) => before.after_clock(),
        Parsed::Speed(speed) => before.after_speed(speed),
        Parsed::Job(job) => before.after_job(job),
        Parsed::Hold(hold) => before.after_hold(hold),
    }
}
