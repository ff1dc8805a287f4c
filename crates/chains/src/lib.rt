// Steps 1 and 2 of "From jobs to a plan" on lent columns: who is late alone, who waits for whom, and who leaves a ring; and the
// deadlines by which step 4 compares. A job is known by its place in the table, and whom it waits for stands as a place in a
// column, `MOST_JOBS` for nobody.
#![tactic(auto)]

ghost use Rattle.std.specs.Prelude.{not, ◌≡◌, ◌≤◌, ◌<◌, length, replicate};
ghost use Rattle.chains.specs.Promises.{Comparable, Deadlines, Holdable, Holders};
ghost use Rattle.chains.specs.Promises.{LeavesRing, PlaceOf, Rather, WaitsFor, Weighable, weight_at};
ghost use Rattle.chains.specs.Waits.{most_resources};
ghost use Rattle.columns.specs.Columns.{AtMost};
ghost use Rattle.columns.specs.Ranges.{TermsInRange};
ghost use Rattle.rules.specs.Plan.{ends_by};
ghost use Rattle.rules.specs.TableText.{most_cycles, most_holds, most_jobs, most_mhz, most_time, most_worth};
ghost use Rattle.steps.specs.Deadlines.{cycles_by};

use columns::{Columns, Terms, look_up};
use rules::{Hold, MOST_HOLDS, MOST_JOBS};
use std::cmp::Ordering;

// The resources, from 0, which no H line names.
pub const RESOURCES: usize = 33;

// The place of nobody. A number, and no `Option`: whom a job waits for is an index, and an index that may be missing would need its
// bound in every contract that reads the column (tried).
pub const NOBODY: u64 = MOST_JOBS as u64;

// What stands in a column of fates for a job that has none yet; else it is the fate's number.
pub const NO_FATE: u64 = 0;

// Step 1, "now + its run time at top speed > termination", multiplied out.
pub fn late(clock: u64, mhz: u64, cycles: u64, termination: u64) -> bool
    requires { Comparable clock mhz cycles termination }
    ensures { result ≡ not (ends_by clock mhz cycles termination) }
{
    termination * mhz < clock * mhz + cycles * 1000
}

// Step 2, "the remaining job that holds the resource": the place of the job of this number, or nobody's.
fn place_of(numbers: &[u64], number: u64) -> u64
    requires { length numbers.now ≤ most_jobs }
    ensures { PlaceOf numbers.now number result }
{
    look_up(numbers, number).map_or(NOBODY, |place| place as u64)
}

// Step 2, "holds the resource": at each resource the place of the job that its H line names, put into a lent column that holds
// nobody. The H lines are gone through from the last to the first.
pub fn holders(holder_at: &mut [u64; RESOURCES], holds: &[Hold], numbers: &[u64])
    requires { (holder_at.old ≡ replicate most_resources most_jobs) × Holdable holds.now numbers.now }
    ensures { Holders holds.now numbers.now holder_at.new }
{
    for hold in holds.iter().rev() {
        let place = place_of(numbers, hold.holder);
        holder_at[hold.resource as usize] = place;
    }
}

// Step 2, "A job waits for the remaining job that holds the resource it requests": its place, where it has no fate yet.
pub fn waits_for(
    requests: &[u64; MOST_JOBS],
    holder_at: &[u64; RESOURCES],
    fates: &[u64; MOST_JOBS],
    place: usize,
) -> u64
    requires { (place < most_jobs) × AtMost most_holds requests.now }
    ensures { WaitsFor place requests.now holder_at.now fates.now result }
{
    let holder = holder_at[requests[place] as usize];
    if NOBODY <= holder || fates[holder as usize] != NO_FATE {
        return NOBODY;
    }
    holder
}

// What step 2 weighs of a job, and its number.
#[derive(Clone, Copy)]
pub struct Weight {
    pub worth: u64,
    pub cycles: u64,
    pub number: u64,
}

impl Weight {
    // What the columns tell of the job at this place.
    fn at(jobs: &Columns, place: usize) -> Weight
        requires { place < most_jobs }
        ensures { result ≡ weight_at jobs.now place }
    {
        Weight {
            worth: jobs.worth[place],
            cycles: jobs.cycles[place],
            number: jobs.number[place],
        }
    }

    // Step 2, "the one with the least worth / cycles ..; among equals, the one with the greatest number": whether this job goes
    // rather than the other.
    pub fn goes_rather(self, other: Weight) -> bool
        requires { Weighable self × Weighable other }
        ensures { Rather self other result }
    {
        let weight = self.worth * other.cycles;
        let other_weight = other.worth * self.cycles;
        match weight.cmp(&other_weight) {
            Ordering::Less => true,
            Ordering::Equal => other.number <= self.number,
            Ordering::Greater => false,
        }
    }
}

// Step 2, "On each ring of waiting jobs, the one .. is taken out": whether it is the job at this place. Each job that it
// waits for holds one of 32 resources, so that after 32 steps all are met.
pub fn leaves_ring(place: usize, waits: &[u64; MOST_JOBS], jobs: &Columns) -> bool
    requires { (place < most_jobs) × AtMost most_worth jobs.now.worth × AtMost most_cycles jobs.now.cycles }
    ensures { LeavesRing place waits.now jobs.now result }
{
    let own = Weight::at(jobs, place);
    let mut met = false;
    let mut at = waits[place] as usize;
    for _ in 0..MOST_HOLDS {
        if MOST_JOBS <= at {
            return met;
        }
        if !own.goes_rather(Weight::at(jobs, at)) {
            return false;
        }
        met |= place == at;
        at = waits[at] as usize;
    }
    met
}

// Step 4, "at or before its termination", told in cycles: the most that can have run by then, at this speed. By a time
// before the clock none can.
fn deadline(clock: u64, mhz: u64, termination: u64) -> u64
    requires { (mhz ≤ most_mhz) × (termination ≤ most_time) }
    ensures { result ≡ cycles_by clock mhz termination }
{
    termination.saturating_sub(clock) * mhz / 1000
}

// Step 4, "from now at top speed": the deadline of each job, at the job's place, so that whoever runs jobs compares cycles
// and multiplies no more. They are put into a lent column of zeros: a column handed back would be copied.
pub fn deadlines(deadline_at: &mut [u64; MOST_JOBS], termination: &[u64; MOST_JOBS], terms: Terms)
    requires { (deadline_at.old ≡ replicate most_jobs 0) × AtMost most_time termination.now × TermsInRange terms }
    ensures { Deadlines termination.now terms deadline_at.new }
{
    for (i, by) in termination[..terms.job_count].iter().enumerate() {
        deadline_at[i] = deadline(terms.clock, terms.mhz, *by);
    }
}
