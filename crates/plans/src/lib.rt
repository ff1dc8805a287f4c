// Steps 5 to 9 of "From jobs to a plan": the course of turns, the fates, the plan of a valid table, and its rooms (document 02, A2).
#![tactic(auto)]

ghost use Rattle.std.specs.Prelude.{Ok, ◌≡◌, ◌-◌, ◌*◌, ◌≤◌, length};
ghost use Rattle.columns.specs.Columns.{AllBelow, TermsOf};
ghost use Rattle.columns.specs.Ranges.{TermsInRange};
ghost use Rattle.plans.specs.Promises.{Concludable, Concluded, CourseNoted, CourseRun, CourseRunnable, Decidable, Decides, DecisionNoted, LeavesPlanOf, LeavesRoomsOf};
ghost use Rattle.plans.specs.Promises.{LeftNoted, LeftRun, LeftRunnable, Marked, Plannable, Takeable, TurnNoted, TurnsNoted, TurnsOrdered, TurnsTaken, leaves, tells, terms_by};
ghost use Rattle.ranks.specs.Promises.{Rankable};
ghost use Rattle.rules.specs.TableText.{most_jobs, most_speeds, records_of, table_with_budget, with_budget};
ghost use Rattle.trials.specs.Promises.{columns_read, no_entries};

use chains::{NO_FATE, NOBODY, RESOURCES, deadlines, holders};
use columns::{Columns, Terms};
use filling::{clear_behind, name_order, note, put_fates, put_order};
use judgements::{Changes, Kept, MOST_CHANGES};
use ranks::{Ratios, chain_ratios, turn_order};
use remaining::take_out;
use rules::{Decision, Fate, Hold, MOST_JOBS, Panel, Speed, Table};
use speeds::choose_speed;
use trials::{JobInTurn, Plan, Totals, turn};

// What is decided, beside the plan and each job's fate: the speed and the energy; how many turns there were, and the room that is
// left at the end, by the plan record's total.
#[derive(Clone, Copy)]
pub struct Decided {
    pub speed: Speed,
    pub energy: u64,
    pub turns: usize,
    pub room: u64,
}

// Document 02, A2: "how much budget the plan leaves at top cost", from the plan record.
fn room_left(cycles: u64, terms: Terms) -> u64
    requires { cycles * terms.cost ≤ terms.budget }
    ensures { result ≡ terms.budget - cycles * terms.cost }
{
    terms.budget - cycles * terms.cost
}

// Of a turn the place of its job and the room after it, where there is a place for them. Planning lends none.
fn note_turn(
    order: &mut [u64],
    rooms: &mut [u64],
    turn: usize,
    place: u64,
    totals: Totals,
    terms: Terms,
)
    requires { totals.cycles * terms.cost ≤ terms.budget }
    ensures { TurnNoted turn place (terms.budget - totals.cycles * terms.cost) order.old rooms.old order.new rooms.new }
{
    if turn < order.len() {
        order[turn] = place;
        note(rooms, turn, room_left(totals.cycles, terms));
    }
}

// Step 5, "Turns": the jobs at these places, each in its turn, from the empty plan. A job's fate is put over that of steps 1 and 2,
// which is 0, and the turn is noted. (What steps 1 to 4 made are columns by themselves, which the promise names one by one.)
fn take_turns(
    plan: &mut Plan,
    fates: &mut [u64; MOST_JOBS],
    turns: &[u64],
    over: &[u64; MOST_JOBS],
    waits: &[u64; MOST_JOBS],
    deadline: &[u64; MOST_JOBS],
    jobs: &Columns,
    terms: Terms,
    order: &mut [u64],
    rooms: &mut [u64],
)
    requires { (plan.old ≡ no_entries) × Takeable turns.now over.now (columns_read waits.now jobs.now.critical jobs.now.cycles deadline.now) fates.old terms }
    ensures taken { TurnsTaken turns.now over.now (columns_read waits.now jobs.now.critical jobs.now.cycles deadline.now) fates.old terms plan.new fates.new }
    ensures noted { TurnsNoted (length turns.now) turns.now over.now (columns_read waits.now jobs.now.critical jobs.now.cycles deadline.now) fates.old terms order.old rooms.old order.new rooms.new }
{
    let mut kept = Kept {
        ends: [0; MOST_JOBS],
        latests: [0; MOST_JOBS],
    };
    let mut changes = Changes {
        places: [0; MOST_CHANGES],
        keys: [0; MOST_CHANGES],
    };
    for (at, &noted) in turns.iter().enumerate() {
        let place = noted as usize;
        let job = JobInTurn {
            place,
            over: over[place],
        };
        let fate = turn(
            plan,
            &mut kept,
            &mut changes,
            job,
            waits,
            deadline,
            jobs,
            terms,
        );
        fates[place] = u64::from(fate);
        note_turn(order, rooms, at, noted, plan.totals, terms);
    }
}

// Step 8, "Planned is 1, also for a job that came in with another's chain": at each of these places.
fn mark_planned(fates: &mut [u64; MOST_JOBS], places: &[u64])
    requires { AllBelow most_jobs places.now }
    ensures { Marked places.now fates.old fates.new }
{
    for &place in places {
        fates[place as usize] = u64::from(Fate::Planned);
    }
}

// Steps 3 to 5, of what steps 1 and 2 leave: the turns in their order, how many they are, and what the members of each one's chain
// give. The chains' cycles serve the order alone: no room is kept for them while the turns are taken.
fn order_turns(
    turns: &mut [u64; MOST_JOBS],
    over: &mut [u64; MOST_JOBS],
    fates: &[u64; MOST_JOBS],
    waits: &[u64; MOST_JOBS],
    deadline: &[u64; MOST_JOBS],
    jobs: &Columns,
    job_count: usize,
) -> usize
    requires { Rankable waits.now jobs.now.cycles jobs.now.worth job_count }
    ensures { TurnsOrdered fates.now waits.now jobs.now deadline.now job_count over.new turns.new result }
{
    let mut ratios = Ratios::new();
    chain_ratios(&mut ratios, fates, waits, deadline, jobs, job_count);
    *over = ratios.over;
    turn_order(turns, fates, &jobs.number, &ratios, job_count)
}

// Steps 3 to 7, of what steps 1 and 2 leave: the ratios of the chains, the turns in their order, and the turns taken, noted as
// `take_turns` notes them. How many turns there were. (The two buffers are the caller's, each by itself, as the panel's call has them.)
fn run_turns(
    plan: &mut Plan,
    fates: &mut [u64; MOST_JOBS],
    waits: &[u64; MOST_JOBS],
    jobs: &Columns,
    terms: Terms,
    order: &mut [u64],
    rooms: &mut [u64],
) -> usize
    requires { (plan.old ≡ no_entries) × LeftRunnable fates.old waits.now jobs.now terms }
    ensures run { LeftRun fates.old waits.now jobs.now terms plan.new fates.new }
    ensures noted { LeftNoted fates.old waits.now jobs.now terms result order.old rooms.old order.new rooms.new }
{
    let count = terms.job_count;
    let mut deadline = [0; MOST_JOBS];
    deadlines(&mut deadline, &jobs.termination, terms);
    let mut turns = [0; MOST_JOBS];
    let mut over = [0; MOST_JOBS];
    let turn_count = order_turns(&mut turns, &mut over, fates, waits, &deadline, jobs, count);
    take_turns(
        plan,
        fates,
        &turns[..turn_count],
        &over,
        waits,
        &deadline,
        jobs,
        terms,
        order,
        rooms,
    );
    turn_count
}

// Steps 1 to 7: who is taken out, and the course of all turns of those that are left, noted as `take_turns` notes it. How many
// turns there were. The plan and the fates come in as they may. (The buffers as at `run_turns`.)
pub fn course_of(
    plan: &mut Plan,
    fates: &mut [u64; MOST_JOBS],
    holds: &[Hold],
    jobs: &Columns,
    terms: Terms,
    order: &mut [u64],
    rooms: &mut [u64],
) -> usize
    requires { CourseRunnable holds.now jobs.now terms }
    ensures run { CourseRun holds.now jobs.now terms plan.new fates.new }
    ensures noted { CourseNoted holds.now jobs.now terms result order.old rooms.old order.new rooms.new }
{
    *plan = Plan::empty();
    let mut holder_at = [NOBODY; RESOURCES];
    holders(&mut holder_at, holds, &jobs.number[..terms.job_count]);
    let mut waits = [0; MOST_JOBS];
    take_out(fates, &mut waits, &holder_at, jobs, terms);
    run_turns(plan, fates, &waits, jobs, terms, order, rooms)
}

// Steps 8 and 9, once all turns are taken, so many.
fn conclude(
    plan: &Plan,
    fates: &mut [u64; MOST_JOBS],
    speeds: &[Speed],
    jobs: &Columns,
    terms: Terms,
    turns: usize,
) -> Decided
    requires { Concludable speeds.now jobs.now terms plan.now }
    ensures { Concluded speeds.now jobs.now terms turns plan.now fates.old fates.new result }
{
    let totals = plan.totals;
    let planned = &plan.places[..totals.count];
    let chosen = choose_speed(speeds, planned, totals.cycles, jobs, terms);
    mark_planned(fates, planned);
    Decided {
        speed: chosen.speed,
        energy: chosen.energy,
        turns,
        room: room_left(totals.cycles, terms),
    }
}

// The clock, the budget and the top speed, as the steps take them.
pub fn terms_of(table: &Table, budget: u64) -> Terms
    requires { (1 ≤ table.now.speed_count) × (table.now.speed_count ≤ most_speeds) }
    ensures told { result ≡ terms_by table.now budget }
    ensures of_table { Plannable table.now budget → TermsOf (with_budget (records_of table.now) budget) result × TermsInRange result }
{
    let top = table.speeds[table.speed_count - 1];
    Terms {
        clock: table.clock,
        budget,
        mhz: top.mhz,
        cost: top.cost,
        job_count: table.job_count,
    }
}

// Steps 1 to 9 on a valid table, with the budget beside it and its jobs in columns. The turns are noted as the course of turns notes
// them. The plan and the fates come in as they may. (The buffers as at `run_turns`.)
pub fn decide(
    plan: &mut Plan,
    fates: &mut [u64; MOST_JOBS],
    table: &Table,
    budget: u64,
    jobs: &Columns,
    order: &mut [u64],
    rooms: &mut [u64],
) -> Decided
    requires { Decidable table.now budget jobs.now }
    ensures decides { Decides table.now budget plan.new fates.new result }
    ensures noted { DecisionNoted table.now budget result.turns order.old rooms.old order.new rooms.new }
    ensures counted { table.now.job_count ≡ length (records_of (table_with_budget table.now budget)).jobs }
{
    let terms = terms_of(table, budget);
    let holds = &table.holds[..table.hold_count];
    let turns = course_of(plan, fates, holds, jobs, terms, order, rooms);
    let speeds = &table.speeds[..table.speed_count];
    conclude(plan, fates, speeds, jobs, terms, turns)
}

// The planner on a valid table, with the budget beside it and its jobs in columns: the decision, and both buffers whole.
pub fn plan_table(
    table: &Table,
    budget: u64,
    jobs: &Columns,
    order: &mut [u64],
    fates: &mut [u64],
) -> Decision
    requires { Decidable table.now budget jobs.now × (most_jobs ≤ length order.old) × (most_jobs ≤ length fates.old) }
    ensures { LeavesPlanOf table.now budget order.old fates.old (leaves (Ok result) order.new fates.new) }
{
    let mut plan = Plan::empty();
    let mut by_job = [NO_FATE; MOST_JOBS];
    let decided = decide(
        &mut plan,
        &mut by_job,
        table,
        budget,
        jobs,
        &mut [],
        &mut [],
    );
    let count = plan.totals.count;
    put_order(order, &plan.places[..count], &jobs.number);
    put_fates(fates, &by_job[..table.job_count]);
    Decision {
        count,
        speed: decided.speed.mhz,
        energy: decided.energy,
    }
}

// The rooms of a valid table, with the budget beside it and its jobs in columns: the panel's answer, and both buffers whole.
pub fn rooms_of(
    table: &Table,
    budget: u64,
    jobs: &Columns,
    turns: &mut [u64],
    rooms: &mut [u64],
) -> Panel
    requires { Decidable table.now budget jobs.now × (most_jobs ≤ length turns.old) × (most_jobs ≤ length rooms.old) }
    ensures { LeavesRoomsOf table.now budget turns.old rooms.old (tells (Ok result) turns.new rooms.new) }
{
    let mut plan = Plan::empty();
    let mut by_job = [NO_FATE; MOST_JOBS];
    let decided = decide(&mut plan, &mut by_job, table, budget, jobs, turns, rooms);
    name_order(turns, decided.turns, &jobs.number);
    clear_behind(rooms, decided.turns);
    Panel {
        turns: decided.turns,
        room: decided.room,
    }
}
