// The planner: a table and a budget beside it in, a plan out, or the room that it leaves after each turn.
#![tactic(auto)]

ghost use Rattle.std.specs.Prelude.{◌≡◌};
ghost use Rattle.columns.specs.Columns.{no_jobs};
ghost use Rattle.planner.specs.Promises.{Asked, BeforeTable, PlannedAs};
ghost use Rattle.plans.specs.Promises.{leaves, tells};
ghost use Rattle.rules.specs.Plan.{planning_with, taken_with};
ghost use Rattle.rules.specs.Rooms.{panel_with};

use checks::check_table;
use columns::Columns;
use handing::hand_back;
use plans::{plan_table, rooms_of};
use records::budget_in_range;
use rules::{Decision, MOST_JOBS, Panel, Refusal, Refused, Table};

// The filled front part of the lent order buffer, as long as the plan, and the decision beside it.
#[derive(Drop)]
pub struct Planned<'a> {
    pub plan: &'a mut [u64],
    pub decision: Result<Decision, Refused>,
}

// What is refused before the table is looked at: a buffer of fewer places than a table has for jobs, and then the budget.
fn before_table(first: usize, second: usize, budget: u64) -> Result<(), Refused>
    ensures { BeforeTable first second budget result }
{
    if first < MOST_JOBS {
        return Err(Refusal::Room.at(0));
    }
    if second < MOST_JOBS {
        return Err(Refusal::Room.at(0));
    }
    if !budget_in_range(budget) {
        return Err(Refusal::Range.at(1));
    }
    Ok(())
}

// What a call that plans a table refuses: what `before_table` does, and then the first refusal of the table, as the writer checks
// it; of its T the budget is checked too, and not planned with. The table's jobs are put into lent columns of zeros.
fn ask(
    jobs: &mut Columns,
    table: &Table,
    budget: u64,
    first: usize,
    second: usize,
) -> Result<(), Refused>
    requires { jobs.old ≡ no_jobs }
    ensures { Asked table.now first second budget jobs.new result }
{
    before_table(first, second, budget)?;
    check_table(jobs, table)
}

// The plan of a table with the budget beside it: the decision, and both buffers whole.
pub fn plan_into(
    table: Table,
    budget: u64,
    order: &mut [u64],
    fates: &mut [u64],
) -> Result<Decision, Refused>
    ensures { leaves result order.new fates.new ≡ planning_with table budget order.old fates.old }
{
    let mut jobs = Columns::new();
    ask(&mut jobs, &table, budget, order.len(), fates.len())?;
    Ok(plan_table(&table, budget, &jobs, order, fates))
}

// The plan as document 01 hands it back: the front part of the order buffer, as long as the plan.
pub fn plan<'a>(table: Table, budget: u64, order: &'a mut [u64], fates: &mut [u64]) -> Planned<'a>
    ensures { PlannedAs (taken_with table budget) order.old fates.old order.entry.ref_ptr result fates.new }
{
    let decision = plan_into(table, budget, order, fates);
    Planned {
        plan: hand_back(order, decision),
        decision,
    }
}

// The panel's call (document 02, A2): the job number of each turn, in the order of turns, and the room that the plan leaves after it,
// at the fronts of both buffers, and 0 behind them; the answer tells how many turns there were and the room that is left at the end.
// The refusals are those of `plan_into`.
pub fn rooms(
    table: Table,
    budget: u64,
    turns: &mut [u64],
    rooms: &mut [u64],
) -> Result<Panel, Refused>
    ensures { tells result turns.new rooms.new ≡ panel_with table budget turns.old rooms.old }
{
    let mut jobs = Columns::new();
    ask(&mut jobs, &table, budget, turns.len(), rooms.len())?;
    Ok(rooms_of(&table, budget, &jobs, turns, rooms))
}
