// The things that document 01 speaks of: a table's records, and the answer of each call.
// What is right is in specs/; here are only the shapes. The records are laid out as C lays them out, for callers in C and
// Rust.
#![tactic(auto)]

ghost use Rattle.std.specs.Prelude.{◌≡◌};
ghost use Rattle.rules.specs.Answers.{fate_number, number_of};
ghost use Rattle.rules.specs.Lists.{within};
ghost use Rattle.rules.specs.TableText.{no_records, table_of};

// How many speeds, jobs and holds a table has places for.
pub const MOST_SPEEDS: usize = 16;

pub const MOST_JOBS: usize = 64;

pub const MOST_HOLDS: usize = 32;

// The most numbers behind a letter.
pub const MOST_FIELDS: usize = 6;

// The most cycles of a job, in millions, and the most that are allocated.
pub const MOST_CYCLES: u64 = 1000000;

// The test that every range is: from low to high, both counted in.
pub fn within(low: u64, high: u64, n: u64) -> bool
    ensures { result ≡ within low high n }
{
    (low..=high).contains(&n)
}

// An F line.
#[repr(C)]
#[derive(Clone, Copy)]
pub struct Speed {
    pub mhz: u64,
    pub cost: u64,
}

// A J line.
#[repr(C)]
#[derive(Clone, Copy)]
pub struct Job {
    pub number: u64,
    pub cycles: u64,
    pub worth: u64,
    pub critical: u64,
    pub termination: u64,
    pub request: u64,
}

// An H line.
#[repr(C)]
#[derive(Clone, Copy)]
pub struct Hold {
    pub resource: u64,
    pub holder: u64,
}

// A whole table: the T line, and of each other letter the first so many places. It may hold anything; which tables are
// valid is a definition of specs/.
#[repr(C)]
#[derive(Clone, Copy)]
pub struct Table {
    pub clock: u64,
    pub budget: u64,
    pub speed_count: usize,
    pub job_count: usize,
    pub hold_count: usize,
    pub speeds: [Speed; MOST_SPEEDS],
    pub jobs: [Job; MOST_JOBS],
    pub holds: [Hold; MOST_HOLDS],
}

// What stands in the places of a table without records.
const NO_SPEED: Speed = Speed { mhz: 0, cost: 0 };

const NO_JOB: Job = Job {
    number: 0,
    cycles: 0,
    worth: 0,
    critical: 0,
    termination: 0,
    request: 0,
};

const NO_HOLD: Hold = Hold {
    resource: 0,
    holder: 0,
};

impl Table {
    // The table without records, which stands where a text is refused.
    pub fn without_records() -> Table
        ensures { result ≡ table_of no_records }
    {
        Table {
            clock: 0,
            budget: 0,
            speed_count: 0,
            job_count: 0,
            hold_count: 0,
            speeds: [NO_SPEED; MOST_SPEEDS],
            jobs: [NO_JOB; MOST_JOBS],
            holds: [NO_HOLD; MOST_HOLDS],
        }
    }
}

// What a refusal says, with its number.
#[derive(Clone, Copy, PartialEq, Eq)]
pub enum Refusal {
    Shape = 1,
    Range = 2,
    Order = 3,
    TooMany = 4,
    CriticalAfterTermination = 5,
    UnknownJob = 6,
    OwnRequest = 7,
    Room = 8,
    Model = 9,
    Allocation = 10,
}

// The one place where code turns a refusal into its number.
impl From<Refusal> for u64 {
    ghost from_gives = { λ refusal n. n ≡ number_of refusal };

    fn from(refusal: Refusal) -> u64 {
        refusal as u64
    }
}

// A refusal and its line: what each call answers in the place of its result.
#[derive(Clone, Copy, PartialEq, Eq)]
pub struct Refused {
    pub why: Refusal,
    pub line: u64,
}

impl Refusal {
    // The refusal of a line.
    pub fn at(self, line: u64) -> Refused
        ensures { result ≡ record { why = self; line = line } }
    {
        Refused { why: self, line }
    }
}

// Why a job runs or does not, with the number that steps 1, 2, 5, 7 and 8 give it.
#[derive(Clone, Copy, PartialEq, Eq)]
pub enum Fate {
    Planned = 1,
    Late = 2,
    Deadlock = 3,
    RatioZero = 4,
    Time = 5,
    Budget = 6,
}

// The one place where code turns a fate into its number.
impl From<Fate> for u64 {
    ghost from_gives = { λ fate n. n ≡ fate_number fate };

    fn from(fate: Fate) -> u64 {
        fate as u64
    }
}

// A plan's job count, speed and energy.
#[derive(Clone, Copy, PartialEq, Eq)]
pub struct Decision {
    pub count: usize,
    pub speed: u64,
    pub energy: u64,
}

// The panel's answer: how many turns there were and the room that is left at the end.
#[derive(Clone, Copy, PartialEq, Eq)]
pub struct Panel {
    pub turns: usize,
    pub room: u64,
}
