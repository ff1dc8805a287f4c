// Steps 6 and 7 of "From jobs to a plan", by what a trial changes (document 02, A4): a walk along the chain notes the changes, from
// keys alone, the order that they would make is judged, and only an accepted trial moves anything.
#![tactic(auto)]

ghost use Rattle.std.specs.Prelude.{◌≡◌, ◌≢◌, ◌≤◌, get_or, length};
ghost use Rattle.entries.specs.Places.{not_planned};
ghost use Rattle.judgements.specs.Promises.{EndsTrue, LatestsTrue};
ghost use Rattle.rules.specs.Answers.{fate_number};
ghost use Rattle.trials.specs.Promises.{Acceptable, Accepted, LeftUntouched, Renewable, Touchable, Turnable, TurnTaken, Walkable, WalkNoted};
ghost use Rattle.trials.specs.Promises.{columns_read, no_entries, trial_fate};

use columns::{Columns, Terms};
use entries::{NOT_PLANNED, insert, move_up, place_for};
use judgements::{Changes, Kept, Noted, Order, latest_at, run_before};
use rules::{Fate, MOST_HOLDS, MOST_JOBS};

// How many entries a plan has, and the sum of their cycles. So no pass over the entries adds them up again.
#[derive(Clone, Copy)]
pub struct Totals {
    pub count: usize,
    pub cycles: u64,
}

// The plan that turns work on: its totals; the places of its jobs in plan order, the first so many, as there is no heap; and the key of
// each job, at the job's place.
#[derive(Clone, Copy)]
pub struct Plan {
    pub totals: Totals,
    pub places: [u64; MOST_JOBS],
    pub keys: [u64; MOST_JOBS],
}

impl Plan {
    // The plan without entries.
    pub fn empty() -> Plan
        ensures { result ≡ no_entries }
    {
        Plan {
            totals: Totals {
                count: 0,
                cycles: 0,
            },
            places: [0; MOST_JOBS],
            keys: [NOT_PLANNED; MOST_JOBS],
        }
    }
}

// The job whose turn it is: its place, and what the members of its chain give.
#[derive(Clone, Copy)]
pub struct JobInTurn {
    pub place: usize,
    pub over: u64,
}

// What a walk noted: the changes, and the cycles of those that come in.
#[derive(Clone, Copy)]
pub struct Walked {
    pub noted: Noted,
    pub added: u64,
}

// What a trial leaves as it stands: how many entries below all changes, and how many moved ones behind them that stand already
// where they are to stand.
#[derive(Clone, Copy)]
pub struct Untouched {
    pub below: usize,
    pub settled: usize,
}

// Step 6, "Trial", from keys alone: the job at this place, which is not in the plan, and then along its chain to the far end. "a
// member in the plan with key below the limit stays, and the limit becomes that key; one with key at or above the limit is removed
// and inserted at the limit; one not in the plan lowers the limit .. and is inserted at the limit": what changes is noted.
fn walk(
    changes: &mut Changes,
    place: usize,
    keys: &[u64; MOST_JOBS],
    waits: &[u64; MOST_JOBS],
    jobs: &Columns,
) -> Walked
    requires { Walkable place keys.now waits.now jobs.now.critical jobs.now.cycles changes.old.places changes.old.keys }
    ensures { WalkNoted place keys.now waits.now jobs.now.critical jobs.now.cycles changes.new.places changes.new.keys result }
{
    let mut limit = jobs.critical[place];
    changes.places[0] = place as u64;
    changes.keys[0] = limit;
    let mut noted = Noted {
        changes: 1,
        moved: 0,
    };
    let mut added = jobs.cycles[place];
    let mut at = waits[place] as usize;
    for _ in 0..MOST_HOLDS {
        if MOST_JOBS <= at {
            break;
        }
        let member = at;
        let key = keys[member];
        at = waits[member] as usize;
        if key < limit {
            limit = key;
            continue;
        }
        if key < NOT_PLANNED {
            noted.moved += 1;
        } else {
            limit = limit.min(jobs.critical[member]);
            added += jobs.cycles[member];
        }
        changes.places[noted.changes] = member as u64;
        changes.keys[noted.changes] = limit;
        noted.changes += 1;
    }
    Walked { noted, added }
}

// Where a trial begins to move something: behind the entries whose keys are below all changes', and behind the moved members that
// stand there already, far end first, as they are to stand. These only get their new keys.
fn left_untouched(
    planned: &[u64],
    keys: &[u64; MOST_JOBS],
    changes: &Changes,
    noted: Noted,
) -> Untouched
    requires { Touchable planned.now noted }
    ensures { LeftUntouched planned.now keys.now changes.now.places changes.now.keys noted result }
{
    let below = place_for(planned, keys, changes.keys[noted.changes - 1]);
    let most = noted.moved.min(planned.len() - below);
    for settled in 0..most {
        if planned[below + settled] != changes.places[noted.changes - 1 - settled] {
            return Untouched { below, settled };
        }
    }
    Untouched {
        below,
        settled: most,
    }
}

// Step 6, made: each change from the far end on, an insertion behind the one before it.
#[inline(never)]
fn accept(plan: &mut Plan, changes: &Changes, count: usize, from: usize)
    requires { Acceptable plan.old.totals.count plan.old.places plan.old.keys changes.now.places changes.now.keys count from }
    ensures made { Accepted plan.old.totals.count plan.old.places plan.old.keys changes.now.places changes.now.keys count from plan.new.places plan.new.keys plan.new.totals.count }
    ensures cycles { plan.new.totals.cycles ≡ plan.old.totals.cycles }
{
    let mut behind = from;
    let mut entries = plan.totals.count;
    for i in (0..count).rev() {
        let place = changes.places[i] as usize;
        let key = changes.keys[i];
        if plan.keys[place] < NOT_PLANNED {
            behind = move_up(
                &mut plan.places,
                &mut plan.keys,
                behind,
                entries,
                place,
                key,
            ) + 1;
        } else {
            behind = insert(
                &mut plan.places,
                &mut plan.keys,
                behind,
                entries,
                place,
                key,
            ) + 1;
            entries += 1;
        }
    }
    plan.totals.count = entries;
}

// What is kept of the entries from an index on: the cycles run by their ends.
#[inline(never)]
fn renew_ends(planned: &[u64], ends: &mut [u64; MOST_JOBS], first: usize, cycles: &[u64; MOST_JOBS])
    requires { Renewable planned.now ends.old cycles.now × (first ≤ length planned.now) × EndsTrue first cycles.now planned.now ends.old }
    ensures { (length ends.new ≡ length ends.old) × EndsTrue (length planned.now) cycles.now planned.now ends.new }
{
    let mut run = run_before(planned, ends, first);
    for &place in &planned[first..] {
        run += cycles[place as usize];
        ends[place as usize] = run;
    }
}

// What is kept of the entries up to an index: their latest beginnings, from the back.
#[inline(never)]
fn renew_latests(
    planned: &[u64],
    latests: &mut [u64; MOST_JOBS],
    upto: usize,
    cycles: &[u64; MOST_JOBS],
    deadline: &[u64; MOST_JOBS],
)
    requires { Renewable planned.now latests.old cycles.now × (upto ≤ length planned.now) × LatestsTrue upto cycles.now deadline.now planned.now latests.old }
    ensures { (length latests.new ≡ length latests.old) × LatestsTrue 0 cycles.now deadline.now planned.now latests.new }
{
    let mut latest = latest_at(planned, latests, upto);
    for i in (0..upto).rev() {
        let place = planned[i] as usize;
        latest = deadline[place].min(latest).saturating_sub(cycles[place]);
        latests[place] = latest;
    }
}

// Steps 6 and 7 for the job at this place, which is not in the plan: its trial is accepted, or dropped with fate 5 or 6. "A dropped
// trial leaves plan and keys as they stood": it touches nothing but `changes`, which are lent, whatever they hold, since arrays here
// would be filled for each turn. (The columns that steps 1 to 4 made are lent one by one, as the promise names them.)
fn try_trial(
    plan: &mut Plan,
    kept: &mut Kept,
    changes: &mut Changes,
    job: JobInTurn,
    waits: &[u64; MOST_JOBS],
    deadline: &[u64; MOST_JOBS],
    jobs: &Columns,
    terms: Terms,
) -> Result<(), Fate>
    requires able { Turnable plan.old kept.old changes.old.places changes.old.keys job (columns_read waits.now jobs.now.critical jobs.now.cycles deadline.now) terms }
    requires new { not_planned ≤ get_or plan.old.keys job.place 0 }
    requires gives { job.over ≢ 0 }
    ensures { TurnTaken plan.old job (columns_read waits.now jobs.now.critical jobs.now.cycles deadline.now) terms plan.new kept.new changes.new.places changes.new.keys (trial_fate result) }
{
    let Walked { noted, added } = walk(changes, job.place, &plan.keys, waits, jobs);
    let count = plan.totals.count;
    let planned = &plan.places[..count];
    let Untouched { below, settled } = left_untouched(planned, &plan.keys, changes, noted);
    let from = below + settled;
    let all_cycles = plan.totals.cycles + added;
    let order = Order {
        planned,
        keys: &plan.keys,
        changes,
        noted: Noted {
            changes: noted.changes - settled,
            moved: noted.moved - settled,
        },
        cycles: &jobs.cycles,
        deadline,
    };
    let passed = order.judge(kept, from, all_cycles, terms)?;
    accept(plan, changes, noted.changes, below);
    plan.totals.cycles = all_cycles;
    let planned = &plan.places[..plan.totals.count];
    renew_ends(planned, &mut kept.ends, from, &jobs.cycles);
    let upto = passed + plan.totals.count - count;
    renew_latests(planned, &mut kept.latests, upto, &jobs.cycles, deadline);
    Ok(())
}

// Steps 5 to 7 for the job at this place: "A job already in the plan is passed over. Ratio 0 gives fate 4"; else its trial decides.
// (The columns as at `try_trial`.)
pub fn turn(
    plan: &mut Plan,
    kept: &mut Kept,
    changes: &mut Changes,
    job: JobInTurn,
    waits: &[u64; MOST_JOBS],
    deadline: &[u64; MOST_JOBS],
    jobs: &Columns,
    terms: Terms,
) -> Fate
    requires { Turnable plan.old kept.old changes.old.places changes.old.keys job (columns_read waits.now jobs.now.critical jobs.now.cycles deadline.now) terms }
    ensures { TurnTaken plan.old job (columns_read waits.now jobs.now.critical jobs.now.cycles deadline.now) terms plan.new kept.new changes.new.places changes.new.keys (fate_number result) }
{
    if plan.keys[job.place] < NOT_PLANNED {
        return Fate::Planned;
    }
    if job.over == 0 {
        return Fate::RatioZero;
    }
    match try_trial(plan, kept, changes, job, waits, deadline, jobs, terms) {
        Ok(()) => Fate::Planned,
        Err(why) => why,
    }
}
