// Step 7 of "From jobs to a plan", by what a trial changes (document 02, A4): the order that its changes would make is run through
// and judged, and nothing is moved. What is kept of the plan's entries spares the run what does not change: the cycles run by their
// ends, and their latest beginnings.
#![tactic(auto)]

ghost use Rattle.std.specs.Prelude.{◌≡◌, ◌+◌, ◌*◌, ◌≤◌, ◌<◌, ◌^◌, cond, ltb, get_or, length};
ghost use Rattle.columns.specs.Columns.{AtMost};
ghost use Rattle.entries.specs.Places.{not_planned};
ghost use Rattle.entries.specs.Promises.{JobPlaces};
ghost use Rattle.judgements.specs.Changes.{WellNoted, far_first, is_next_to_go, most_changes, pass_on, run_on};
ghost use Rattle.judgements.specs.Promises.{ChangesRun, FateJudged, Judgeable, LatestAt, MovedRun, RunBefore, RunSoFar};
ghost use Rattle.rules.specs.TableText.{most_cycles, most_jobs};

use columns::Terms;
use entries::NOT_PLANNED;
use rules::{Fate, MOST_JOBS};

// A trial changes each member of the chain at most: a job, and one for each resource.
pub const MOST_CHANGES: usize = 33;

// How many cycles can have run before nothing: more than any plan has, and than any deadline, so that one comparison is enough.
pub const NO_BOUND: u64 = 1000000000000;

// The changes of a trial, in the order of the walk: the places of jobs, and their new keys. The first so many are noted. (There is no heap,
// and two columns, as each loop reads one of them.)
#[derive(Clone, Copy)]
pub struct Changes {
    pub places: [u64; MOST_CHANGES],
    pub keys: [u64; MOST_CHANGES],
}

// How many changes are noted, and how many of them move a planned job.
#[derive(Clone, Copy)]
pub struct Noted {
    pub changes: usize,
    pub moved: usize,
}

// What is kept of the plan's entries, at their jobs' places: the cycles run by their ends, and their latest beginnings. (Two columns: a
// trial that is dropped reads the one or the other.)
#[derive(Clone, Copy)]
pub struct Kept {
    pub ends: [u64; MOST_JOBS],
    pub latests: [u64; MOST_JOBS],
}

// A run through a new order, while no job has ended late: the cycles that have run; how many entries of the plan are passed, and how
// many of those have left it.
#[derive(Clone, Copy)]
pub struct Run {
    pub cycles: u64,
    pub passed: usize,
    pub gone: usize,
}

// The order that a trial would make: the plan's places and the jobs' keys, the changes, and by columns how long each job runs and
// by when it must have ended.
#[derive(Clone, Copy)]
pub struct Order<'a> {
    pub planned: &'a [u64],
    pub keys: &'a [u64; MOST_JOBS],
    pub changes: &'a Changes,
    pub noted: Noted,
    pub cycles: &'a [u64; MOST_JOBS],
    pub deadline: &'a [u64; MOST_JOBS],
    ghost places: { JobPlaces planned.now },
    ghost few: { noted.changes ≤ most_changes },
    ghost moved_few: { noted.moved ≤ noted.changes },
    ghost cycles_small: { AtMost most_cycles cycles.now },
}

// The cycles run before the entry at an index of the plan.
pub fn run_before(planned: &[u64], ends: &[u64; MOST_JOBS], i: usize) -> u64
    requires { JobPlaces planned.now × (i ≤ length planned.now) }
    ensures { RunBefore planned.now ends.now i result }
{
    match planned[..i].last() {
        Some(&place) => ends[place as usize],
        None => 0,
    }
}

// The latest beginning of the entry at an index of the plan and all behind it.
pub fn latest_at(planned: &[u64], latests: &[u64; MOST_JOBS], i: usize) -> u64
    requires { JobPlaces planned.now }
    ensures { LatestAt planned.now latests.now i result }
{
    match planned.get(i) {
        Some(&place) => latests[place as usize],
        None => NO_BOUND,
    }
}

impl<'a> Order<'a> {
    // Step 7: the cycles run by the end of the job at this place, behind so many. None if it ends after its deadline.
    fn run_on(&self, run: u64, place: usize) -> Option<u64>
        requires { (run < 2 ^ 63) × (place < most_jobs) }
        ensures { result ≡ run_on self.now.cycles.now self.now.deadline.now run place }
    {
        let by_end = run + self.cycles[place];
        if self.deadline[place] < by_end {
            return None;
        }
        Some(by_end)
    }

    // The key of the entry at an index of the plan; behind the last, one above every time.
    fn key_at(&self, i: usize) -> u64
        ensures { let o = self.now in result ≡ cond (ltb i (length o.planned.now)) (get_or o.keys.now (get_or o.planned.now i 0) 0) not_planned }
    {
        match self.planned.get(i) {
            Some(&place) => self.keys[place as usize],
            None => NOT_PLANNED,
        }
    }

    // Whether the entry of this place is moved away. The planned members of a chain stand in the plan far end first, and so were
    // noted last: it is the last noted that has not gone yet, or it stays.
    fn is_moved(&self, gone: usize, place: u64) -> bool
        ensures { result ≡ is_next_to_go self.now.changes.now.places self.now.noted gone place }
    {
        let noted = self.noted;
        gone < noted.moved && place == self.changes.places[noted.changes - 1 - gone]
    }

    // Step 7, "run in order", an entry of the plan: it is run, or it is moved and no longer stands here. None if it ends late.
    fn pass(&self, run: Run, place: u64) -> Option<Run>
        requires { (run.cycles < 2 ^ 63) × (run.passed ≤ most_jobs) × (run.gone ≤ run.passed) × (place < most_jobs) }
        ensures { result ≡ pass_on self.now.changes.now.places self.now.noted self.now.cycles.now self.now.deadline.now run place }
    {
        let passed = run.passed + 1;
        if self.is_moved(run.gone, place) {
            let gone = run.gone + 1;
            return Some(Run {
                passed,
                gone,
                ..run
            });
        }
        let cycles = self.run_on(run.cycles, place as usize)?;
        Some(Run {
            cycles,
            passed,
            ..run
        })
    }

    // Step 7, "run in order", to the last change: the changes from the far end on, each before the first entry whose key is its own or
    // more, and the entries before it. None if a job ends late.
    fn run_changes(&self, from: Run) -> Option<Run>
        requires { let o = self.now in WellNoted (far_first o.noted.changes o.changes.now.places o.changes.now.keys) o.keys.now × RunSoFar o.planned.now 0 from }
        ensures { let o = self.now in ChangesRun o.planned.now o.keys.now o.changes.now.places o.changes.now.keys o.noted o.cycles.now o.deadline.now from result }
    {
        let mut run = from;
        for left in (0..self.noted.changes).rev() {
            // a `while`, as below: the run itself says how many entries it passes
            while self.key_at(run.passed) < self.changes.keys[left] {
                run = self.pass(run, self.planned[run.passed])?;
            }
            let cycles = self.run_on(run.cycles, self.changes.places[left] as usize)?;
            run = Run { cycles, ..run };
        }
        Some(run)
    }

    // Step 7, "run in order", behind the last change: the entries to the last one that is moved. Where the members of a chain stand in
    // order, there is one as long as one has not gone. None if one ends late.
    fn run_to_moved(&self, from: Run) -> Option<Run>
        requires { RunSoFar self.now.planned.now self.now.noted.changes from }
        ensures { let o = self.now in MovedRun o.planned.now o.changes.now.places o.noted o.cycles.now o.deadline.now from result }
    {
        let mut run = from;
        while run.gone < self.noted.moved && run.passed < self.planned.len() {
            run = self.pass(run, self.planned[run.passed])?;
        }
        Some(run)
    }

    // Step 7, "Accept or not", of a trial that makes these changes behind the first `from` entries, and so many cycles in all: how many
    // entries are passed when nothing changes behind, or why "the trial is dropped (fate 5). Else if .. exceed the budget, it is
    // dropped (fate 6)". The first entries end as they did; what lies between the changes is run through; what is behind the last
    // change, and behind the last entry that is moved, is in time exactly if it begins no later than its latest beginning.
    pub fn judge(
        &self,
        kept: &Kept,
        from: usize,
        all_cycles: u64,
        terms: Terms,
    ) -> Result<usize, Fate>
        requires { let o = self.now in Judgeable o.planned.now o.keys.now kept.now.ends kept.now.latests o.changes.now.places o.changes.now.keys o.noted from all_cycles o.cycles.now o.deadline.now terms }
        ensures { let o = self.now in FateJudged o.planned.now o.keys.now o.changes.now.places o.changes.now.keys o.noted from all_cycles o.cycles.now o.deadline.now terms result }
    {
        let front = Run {
            cycles: run_before(self.planned, &kept.ends, from),
            passed: from,
            gone: 0,
        };
        let changes_run = self.run_changes(front).ok_or(Fate::Time)?;
        let run = self.run_to_moved(changes_run).ok_or(Fate::Time)?;
        if latest_at(self.planned, &kept.latests, run.passed) < run.cycles {
            return Err(Fate::Time);
        }
        if terms.budget < all_cycles * terms.cost {
            return Err(Fate::Budget);
        }
        Ok(run.passed)
    }
}
