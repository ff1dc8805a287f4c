// The judgement of one record, from its numbers and a small state of what stands before it: refusals 2 to 7.
#![tactic(auto)]

ghost use Rattle.std.specs.Prelude.{◌≡◌, ◌≤◌};
ghost use Rattle.records.specs.Faults.{RequestOf, clock_fault, fault_says, hold_fault, job_fault, speed_fault};
ghost use Rattle.records.specs.Standing.{after_clock, after_hold, after_job, after_speed, none_standing};
ghost use Rattle.rules.specs.TableText.{Record, in_range, is_budget, most_holds, most_jobs, most_speeds};

use rules::{Hold, Job, MOST_CYCLES, MOST_JOBS, MOST_SPEEDS, Refusal, Speed, within};

const MOST_TIME: u64 = 1000000000;

const MOST_BUDGET: u64 = 1000000000000000;

const MOST_MHZ: u64 = 4000;

const MOST_COST: u64 = 4000000;

const MOST_JOB_NUMBER: u64 = 9999;

const MOST_WORTH: u64 = 1000000;

const MOST_RESOURCE: u64 = 32;

// What stands before a line: whether the T does, how many of each other letter, and the first number of the last of each
// (0 where there is none).
#[derive(Clone, Copy)]
pub struct Standing {
    pub begun: bool,
    pub speeds: usize,
    pub jobs: usize,
    pub holds: usize,
    pub mhz: u64,
    pub number: u64,
    pub resource: u64,
}

// The range of a budget, in a T line or beside a table.
#[tactic(auto, unfolding(rules::specs::TableText::is_budget))]
pub fn budget_in_range(budget: u64) -> bool
    ensures { result ≡ is_budget budget }
{
    within(0, MOST_BUDGET, budget)
}

#[tactic(auto, unfolding(rules::specs::TableText::in_range, rules::specs::TableText::is_time))]
fn clock_in_range(clock: u64, budget: u64) -> bool
    ensures { result ≡ in_range (Record.T clock budget) }
{
    within(0, MOST_TIME, clock) && budget_in_range(budget)
}

#[tactic(auto, unfolding(rules::specs::TableText::in_range, rules::specs::TableText::is_mhz, rules::specs::TableText::is_cost))]
fn speed_in_range(speed: Speed) -> bool
    ensures { result ≡ in_range (Record.F speed) }
{
    within(1, MOST_MHZ, speed.mhz) && within(1, MOST_COST, speed.cost)
}

#[tactic(auto, unfolding(rules::specs::TableText::in_range, rules::specs::TableText::is_job_number, rules::specs::TableText::is_cycles, rules::specs::TableText::is_worth, rules::specs::TableText::is_time, rules::specs::TableText::is_request))]
fn job_in_range(job: Job) -> bool
    ensures { result ≡ in_range (Record.J job) }
{
    within(1, MOST_JOB_NUMBER, job.number)
        && within(1, MOST_CYCLES, job.cycles)
        && within(0, MOST_WORTH, job.worth)
        && within(0, MOST_TIME, job.critical)
        && within(0, MOST_TIME, job.termination)
        && within(0, MOST_RESOURCE, job.request)
}

#[tactic(auto, unfolding(rules::specs::TableText::in_range, rules::specs::TableText::is_resource, rules::specs::TableText::is_job_number))]
fn hold_in_range(hold: Hold) -> bool
    ensures { result ≡ in_range (Record.H hold) }
{
    within(1, MOST_RESOURCE, hold.resource) && within(1, MOST_JOB_NUMBER, hold.holder)
}

impl Standing {
    // Before line 1.
    pub fn none() -> Standing
        ensures { result ≡ none_standing }
    {
        Standing {
            begun: false,
            speeds: 0,
            jobs: 0,
            holds: 0,
            mhz: 0,
            number: 0,
            resource: 0,
        }
    }

    // Refusals 2 and 3 of a T line.
    #[tactic(auto, unfolding(crate::specs::Faults::clock_fault))]
    pub fn judge_clock(self, clock: u64, budget: u64) -> Result<(), Refusal>
        ensures { fault_says result ≡ clock_fault self clock budget }
    {
        if !clock_in_range(clock, budget) {
            return Err(Refusal::Range);
        }
        if self.begun {
            return Err(Refusal::Order);
        }
        Ok(())
    }

    // Refusals 2 to 4 of an F line.
    #[tactic(auto, unfolding(crate::specs::Faults::speed_fault))]
    pub fn judge_speed(self, speed: Speed) -> Result<(), Refusal>
        ensures { fault_says result ≡ speed_fault self speed }
    {
        if !speed_in_range(speed) {
            return Err(Refusal::Range);
        }
        if !self.begun || self.jobs != 0 || speed.mhz <= self.mhz {
            return Err(Refusal::Order);
        }
        if MOST_SPEEDS <= self.speeds {
            return Err(Refusal::TooMany);
        }
        Ok(())
    }

    // Refusals 2 to 5 of a J line.
    #[tactic(auto, unfolding(crate::specs::Faults::job_fault))]
    pub fn judge_job(self, job: Job) -> Result<(), Refusal>
        ensures { fault_says result ≡ job_fault self job }
    {
        if !job_in_range(job) {
            return Err(Refusal::Range);
        }
        if self.speeds == 0 || self.holds != 0 || job.number <= self.number {
            return Err(Refusal::Order);
        }
        if MOST_JOBS <= self.jobs {
            return Err(Refusal::TooMany);
        }
        if job.termination < job.critical {
            return Err(Refusal::CriticalAfterTermination);
        }
        Ok(())
    }

    // Refusals 2, 3, 6 and 7 of an H line, of whose job it is known what it requests, if the table has it.
    #[tactic(auto, unfolding(crate::specs::Faults::hold_fault))]
    pub fn judge_hold(self, hold: Hold, request: Option<u64>) -> Result<(), Refusal>
        ensures { fault_says result ≡ hold_fault self hold request }
    {
        if !hold_in_range(hold) {
            return Err(Refusal::Range);
        }
        if self.jobs == 0 || hold.resource <= self.resource {
            return Err(Refusal::Order);
        }
        let request = request.ok_or(Refusal::UnknownJob)?;
        if request == hold.resource {
            return Err(Refusal::OwnRequest);
        }
        Ok(())
    }

    // The state after a T line.
    pub fn after_clock(self) -> Standing
        ensures { result ≡ after_clock self }
    {
        Standing {
            begun: true,
            ..self
        }
    }

    // The state after an F line.
    pub fn after_speed(self, speed: Speed) -> Standing
        requires { self.speeds ≤ most_speeds }
        ensures { result ≡ after_speed self speed }
    {
        Standing {
            begun: true,
            speeds: self.speeds + 1,
            mhz: speed.mhz,
            ..self
        }
    }

    // The state after a J line.
    pub fn after_job(self, job: Job) -> Standing
        requires { self.jobs ≤ most_jobs }
        ensures { result ≡ after_job self job }
    {
        Standing {
            begun: true,
            jobs: self.jobs + 1,
            number: job.number,
            ..self
        }
    }

    // The state after an H line.
    pub fn after_hold(self, hold: Hold) -> Standing
        requires { self.holds ≤ most_holds }
        ensures { result ≡ after_hold self hold }
    {
        Standing {
            begun: true,
            holds: self.holds + 1,
            resource: hold.resource,
            ..self
        }
    }
}

// What the job that an H line names requests, if it is among these jobs. Their numbers rise.
pub fn request_of(jobs: &[Job], number: u64) -> Option<u64>
    ensures { RequestOf jobs.now number result }
{
    let place = jobs.binary_search_by_key(&number, |job| job.number).ok()?;
    Some(jobs[place].request)
}
