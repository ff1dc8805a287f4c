// Steps 1 and 2 of "From jobs to a plan" for the whole table: which jobs are taken out, with their fates, and whom each
// of the others waits for. What they find is put into lent columns, at the jobs' places: a column handed back would be copied.
#![tactic(auto)]

ghost use Rattle.std.specs.Prelude.{cond, not, ◌≡◌, ◌≤◌, ◌<◌, replicate};
ghost use Rattle.chains.specs.Promises.{Comparable};
ghost use Rattle.columns.specs.Columns.{AtMost};
ghost use Rattle.columns.specs.Ranges.{RunsInRange, TermsInRange};
ghost use Rattle.remaining.specs.Ends.{EndMarks, is_walked};
ghost use Rattle.remaining.specs.Promises.{Awaited, LateFates, RingFate, RingFates, Settled};
ghost use Rattle.remaining.specs.Promises.{Stageable, Staged, WaitsColumn, WalkEnd};
ghost use Rattle.rules.specs.Plan.{ends_by, fate_late};
ghost use Rattle.rules.specs.TableText.{most_cycles, most_holds, most_jobs, most_worth};

use chains::{NO_FATE, RESOURCES, late, leaves_ring, waits_for};
use columns::{Columns, Terms};
use rules::{Fate, MOST_HOLDS, MOST_JOBS};

// Step 2, "On each ring of waiting jobs": what is known of the job at a place.
#[derive(Clone, Copy, PartialEq, Eq)]
enum Mark {
    // No job waits for it, so that it is on no ring.
    Unawaited,
    // Some job waits for it, and nothing more is known.
    Awaited,
    // The walk along whom each waits for ends, at one who waits for nobody, so that the job is on no ring.
    Ends,
    // That walk did not end in 33 steps.
    GoesOn,
}

impl Mark {
    // Whether the walk from there has been walked.
    fn is_walked(self) -> bool
        ensures { result ≡ is_walked self }
    {
        matches!(self, Mark::Ends | Mark::GoesOn)
    }
}

// Step 1, "A job with now + its run time at top speed > termination is taken out (fate 2)": 0 for one that remains.
fn fate_if_late(clock: u64, mhz: u64, cycles: u64, termination: u64) -> u64
    requires { Comparable clock mhz cycles termination }
    ensures { result ≡ cond (not (ends_by clock mhz cycles termination)) fate_late 0 }
{
    if late(clock, mhz, cycles, termination) {
        return u64::from(Fate::Late);
    }
    NO_FATE
}

// Step 1, "Late alone": fate 2 at the place of each job that is late.
fn late_fates(fates: &mut [u64; MOST_JOBS], jobs: &Columns, terms: Terms)
    requires { RunsInRange jobs.now.cycles jobs.now.termination × TermsInRange terms }
    ensures { LateFates jobs.now terms fates.new }
{
    for i in 0..terms.job_count {
        fates[i] = fate_if_late(terms.clock, terms.mhz, jobs.cycles[i], jobs.termination[i]);
    }
}

// Step 2, "A job waits for the remaining job that holds the resource it requests": for each job, those of fate 0
// remaining.
fn waits_column(
    waits: &mut [u64; MOST_JOBS],
    request: &[u64; MOST_JOBS],
    holder_at: &[u64; RESOURCES],
    fates: &[u64; MOST_JOBS],
    job_count: usize,
)
    requires { (job_count ≤ most_jobs) × AtMost most_holds request.now }
    ensures { WaitsColumn request.now holder_at.now fates.now job_count waits.new }
{
    for i in 0..job_count {
        waits[i] = waits_for(request, holder_at, fates, i);
    }
}

// Step 2, "A job waits for the remaining job": a mark at the place of each job that some job waits for.
fn mark_awaited(marks: &mut [Mark; MOST_JOBS], waits: &[u64; MOST_JOBS], job_count: usize)
    requires { (job_count ≤ most_jobs) × (marks.old ≡ replicate most_jobs Mark.Unawaited) }
    ensures { Awaited waits.now job_count marks.new }
{
    for awaited in waits[..job_count].iter() {
        let holder = *awaited as usize;
        if holder < MOST_JOBS {
            marks[holder] = Mark::Awaited;
        }
    }
}

// Step 2, "On each ring of waiting jobs": how the walk from this place comes out, as a mark. It stops at the mark of an earlier
// walk.
fn walk_end(place: usize, marks: &[Mark; MOST_JOBS], waits: &[u64; MOST_JOBS]) -> Mark
    requires { EndMarks waits.now marks.now }
    ensures { WalkEnd place waits.now result }
{
    let mut at = place;
    for _ in 0..=MOST_HOLDS {
        if MOST_JOBS <= at {
            return Mark::Ends;
        }
        if marks[at].is_walked() {
            return marks[at];
        }
        at = waits[at] as usize;
    }
    Mark::GoesOn
}

// Step 2, "On each ring of waiting jobs": how the walk from this place comes out, as a mark at each place of it, up to the
// first that has such a mark already.
fn mark_walk(place: usize, end: Mark, marks: &mut [Mark; MOST_JOBS], waits: &[u64; MOST_JOBS])
    requires { EndMarks waits.now marks.old × WalkEnd place waits.now end }
    ensures { Settled waits.now marks.old marks.new }
{
    let mut at = place;
    for _ in 0..=MOST_HOLDS {
        if MOST_JOBS <= at || marks[at].is_walked() {
            return;
        }
        marks[at] = end;
        at = waits[at] as usize;
    }
}

// Step 2, "On each ring of waiting jobs": the walk from an awaited job of which nothing more is known is walked and marked.
fn settle(place: usize, marks: &mut [Mark; MOST_JOBS], waits: &[u64; MOST_JOBS])
    requires { (place < most_jobs) × EndMarks waits.now marks.old }
    ensures { Settled waits.now marks.old marks.new }
{
    if marks[place] == Mark::Awaited {
        let end = walk_end(place, marks, waits);
        mark_walk(place, end, marks, waits);
    }
}

// Step 2, "On each ring of waiting jobs, the one .. is taken out (fate 3)": the fate of the job at this place, from the
// one that step 1 gave it. A job for which nobody waits is on no ring, nor is one whose walk ends.
fn ring_fate(late: u64, mark: Mark, place: usize, waits: &[u64; MOST_JOBS], jobs: &Columns) -> u64
    requires { (place < most_jobs) × AtMost most_worth jobs.now.worth × AtMost most_cycles jobs.now.cycles }
    ensures { RingFate late mark place waits.now jobs.now result }
{
    if late != NO_FATE {
        return late;
    }
    if mark == Mark::Unawaited {
        return NO_FATE;
    }
    if mark == Mark::Ends {
        return NO_FATE;
    }
    if leaves_ring(place, waits, jobs) {
        return u64::from(Fate::Deadlock);
    }
    NO_FATE
}

// Step 2, "On each ring": to the fates of step 1, 3 at the place of each job that leaves its ring.
fn ring_fates(
    fates: &mut [u64; MOST_JOBS],
    waits: &[u64; MOST_JOBS],
    jobs: &Columns,
    job_count: usize,
)
    requires { (job_count ≤ most_jobs) × AtMost most_worth jobs.now.worth × AtMost most_cycles jobs.now.cycles }
    ensures { RingFates fates.old waits.now jobs.now job_count fates.new }
{
    let mut marks = [Mark::Unawaited; MOST_JOBS];
    mark_awaited(&mut marks, waits, job_count);
    for i in 0..job_count {
        settle(i, &mut marks, waits);
        fates[i] = ring_fate(fates[i], marks[i], i, waits, jobs);
    }
}

// Steps 1 and 2: a fate for each job taken out, 0 for the others, and whom each job waits for among the others. It is looked
// up twice: among the timely, to find the rings, and among those that step 2 leaves.
pub fn take_out(
    fates: &mut [u64; MOST_JOBS],
    waits: &mut [u64; MOST_JOBS],
    holder_at: &[u64; RESOURCES],
    jobs: &Columns,
    terms: Terms,
)
    requires { Stageable jobs.now terms }
    ensures { Staged holder_at.now jobs.now terms fates.new waits.new }
{
    late_fates(fates, jobs, terms);
    waits_column(waits, &jobs.request, holder_at, fates, terms.job_count);
    ring_fates(fates, waits, jobs, terms.job_count);
    waits_column(waits, &jobs.request, holder_at, fates, terms.job_count);
}
