// The jobs of a table stand in columns, one for each field: the steps of "From jobs to a plan" know a job by its place, and read
// its fields there.
#![tactic(auto)]

ghost use Rattle.std.specs.Prelude.{◌≡◌, ◌<◌};
ghost use Rattle.columns.specs.Columns.{no_jobs, with_job};
ghost use Rattle.columns.specs.LookUp.{StandsAt};
ghost use Rattle.rules.specs.TableText.{most_jobs};

use rules::{Job, MOST_JOBS};

// What every step reads beside the jobs: the T line, the top speed and its cost, and how many jobs there are.
#[derive(Clone, Copy)]
pub struct Terms {
    pub clock: u64,
    pub budget: u64,
    pub mhz: u64,
    pub cost: u64,
    pub job_count: usize,
}

// The jobs of a table, a column for each field: at each place the field of the job there. (Columns and no
// jobs side by side: a loop over the jobs reads one or two fields of each.)
#[derive(Clone, Copy)]
pub struct Columns {
    pub number: [u64; MOST_JOBS],
    pub cycles: [u64; MOST_JOBS],
    pub worth: [u64; MOST_JOBS],
    pub critical: [u64; MOST_JOBS],
    pub termination: [u64; MOST_JOBS],
    pub request: [u64; MOST_JOBS],
}

impl Columns {
    // Columns of zeros, to be filled.
    pub fn new() -> Columns
        ensures { result ≡ no_jobs }
    {
        Columns {
            number: [0; MOST_JOBS],
            cycles: [0; MOST_JOBS],
            worth: [0; MOST_JOBS],
            critical: [0; MOST_JOBS],
            termination: [0; MOST_JOBS],
            request: [0; MOST_JOBS],
        }
    }

    // A job's fields, each put at its place in the column.
    pub fn put(&mut self, place: usize, job: Job)
        requires { place < most_jobs }
        ensures { self.new ≡ with_job self.old place job }
    {
        self.number[place] = job.number;
        self.cycles[place] = job.cycles;
        self.worth[place] = job.worth;
        self.critical[place] = job.critical;
        self.termination[place] = job.termination;
        self.request[place] = job.request;
    }
}

// The place of the job of a number in a column of numbers. Those of a table's jobs rise, so the search halves what is left.
pub fn look_up(numbers: &[u64], number: u64) -> Option<usize>
    ensures { StandsAt numbers.now number result }
{
    numbers.binary_search(&number).ok()
}
