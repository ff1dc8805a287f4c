// A good table with one thing made wrong, written, and planned: the refusals that a table's records can get. All places of it
// are to be filled, so that its F lines are 2 to 17, its J lines 18 to 81 and its H lines 82 to 113. Where a fault is added to
// another, it stands on an earlier line: the first bad line decides.
use crate::again::write;
use crate::report::{put_decision, put_part_name};
use rules::{Hold, Job, MOST_JOBS, Speed, Table};

// The writer and the planner refuse it alike.
fn try_bent(out: &impl Print, name: &[u8], table: Table) {
    put_part_name(out, name);
    write(out, table);
    let mut order = [0; MOST_JOBS];
    let mut fates = [0; MOST_JOBS];
    put_decision(out, planner::plan_into(table, 0, &mut order, &mut fates));
}

fn counts(out: &impl Print, table: Table) {
    let mut bent = table;
    bent.speed_count = 0;
    try_bent(out, b"no F", bent);
    bent.speed_count = 17;
    try_bent(out, b"17 F", bent);
    bent.speed_count = usize::MAX;
    try_bent(out, b"as many F as a count can say", bent);
    bent.speed_count = 16;
    bent.job_count = 65;
    try_bent(out, b"65 J", bent);
    bent.job_count = 0;
    try_bent(out, b"H without J", bent);
    bent.job_count = 64;
    bent.hold_count = 33;
    try_bent(out, b"33 H", bent);
}

fn clock(out: &impl Print, table: Table) {
    let mut bent = table;
    bent.clock = 1000000001;
    try_bent(out, b"now above its range", bent);
    bent.clock = 0;
    bent.budget = 1000000000000001;
    try_bent(out, b"budget above its range", bent);
}

fn speeds(out: &impl Print, table: Table) {
    let mut bent = table;
    bent.speeds[15] = Speed { mhz: 4001, cost: 1 };
    try_bent(out, b"the last speed above its range", bent);
    bent.speeds[1] = Speed { mhz: 1, cost: 1 };
    try_bent(out, b"the second speed does not rise", bent);
}

// A job that is otherwise good.
fn bent_job(number: u64, critical: u64, worth: u64) -> Job {
    Job {
        number,
        cycles: 1,
        worth,
        critical,
        termination: 0,
        request: 0,
    }
}

fn jobs(out: &impl Print, table: Table) {
    let mut bent = table;
    bent.jobs[63] = bent_job(9999, 1, 0);
    try_bent(out, b"the last job is critical after its termination", bent);
    bent.jobs[1] = bent_job(1, 0, 0);
    try_bent(out, b"the second job does not rise", bent);
    bent.jobs[0] = bent_job(1, 0, 1000001);
    try_bent(out, b"the first job's worth above its range", bent);
}

fn holds(out: &impl Print, table: Table) {
    let mut bent = table;
    bent.holds[31] = Hold {
        resource: 32,
        holder: 9999,
    };
    try_bent(out, b"the last holder requests what it holds", bent);
    bent.holds[31] = Hold {
        resource: 32,
        holder: 1,
    };
    try_bent(out, b"the last holder is no job", bent);
    bent.holds[1] = Hold {
        resource: 1,
        holder: 1,
    };
    try_bent(out, b"the second resource does not rise", bent);
    bent.holds[0] = Hold {
        resource: 33,
        holder: 1,
    };
    try_bent(out, b"the first resource above its range", bent);
}

pub(crate) fn each_way(out: &impl Print, text: &[u8]) {
    let table = reader::read(text).unwrap_or(Table::without_records());
    counts(out, table);
    clock(out, table);
    speeds(out, table);
    jobs(out, table);
    holds(out, table);
}
