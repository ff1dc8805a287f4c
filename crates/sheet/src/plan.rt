// The planner's calls in three ways, with marked buffers that are longer than it needs, and with several budgets beside a table.
ghost use Rattle.std.specs.Prelude.{◌≤◌, ◌≡◌};
ghost use Rattle.rules.specs.Plan.{part_of, planning_with};

use crate::report::{put_decision, put_numbers, put_part_name, put_refusal};
use rules::{Decision, Refused, Table};

pub(crate) const MARK: u64 = 7;

pub(crate) const PLACES: usize = 70;

pub(crate) const MOST_BUDGET: u64 = 1000000000000000;

// Both buffers, whole.
fn put_buffers(out: &impl Print, order: &[u64; PLACES], fates: &[u64; PLACES]) {
    put_numbers(out, b"order", order);
    put_numbers(out, b"fates", fates);
}

// `plan_into`, with so many places of both buffers; what is printed are all of them.
pub(crate) fn plan_into_places(
    out: &impl Print,
    table: Table,
    budget: u64,
    order_places: usize,
    fate_places: usize,
)
    requires { (order_places ≤ 70) × (fate_places ≤ 70) }
{
    let mut order = [MARK; PLACES];
    let mut fates = [MARK; PLACES];
    let decision = planner::plan_into(
        table,
        budget,
        &mut order[..order_places],
        &mut fates[..fate_places],
    );
    put_decision(out, decision);
    put_buffers(out, &order, &fates);
}

// `plan_into`, and then `hand_back`: the part, and then the whole buffers.
fn plan_handed_back(out: &impl Print, table: Table, budget: u64) {
    let mut order = [MARK; PLACES];
    let mut fates = [MARK; PLACES];
    let decision = planner::plan_into(table, budget, &mut order, &mut fates);
    let part = handing::hand_back(&mut order, decision);
    put_numbers(out, b"part", part);
    put_buffers(out, &order, &fates);
}

// The decision and the part, which is handed back.
fn put_planned<'a>(
    out: &impl Print,
    part: &'a mut [u64],
    decision: Result<Decision, Refused>,
) -> &'a mut [u64]
    ensures { (result.now ≡ part.old) × (result.ref_ptr ≡ part.entry.ref_ptr) }
{
    put_decision(out, decision);
    put_numbers(out, b"part", part);
    part
}

// What `plan` answers, the part and the decision together.
fn plan_together<'a>(
    out: &impl Print,
    table: Table,
    budget: u64,
    order: &'a mut [u64],
    fates: &mut [u64],
) -> &'a mut [u64]
    ensures { (result.now ≡ part_of (planning_with table budget order.old fates.old)) × (result.ref_ptr ≡ order.entry.ref_ptr) }
{
    let planned = planner::plan(table, budget, order, fates);
    put_planned(out, planned.plan, planned.decision)
}

// `plan`: the decision and the part, and then the whole buffers.
fn plan(out: &impl Print, table: Table, budget: u64) {
    let mut order = [MARK; PLACES];
    let mut fates = [MARK; PLACES];
    plan_together(out, table, budget, &mut order, &mut fates);
    put_buffers(out, &order, &fates);
}

fn in_three_ways(out: &impl Print, table: Table, budget: u64) {
    put_part_name(out, b"plan_into");
    plan_into_places(out, table, budget, PLACES, PLACES);
    put_part_name(out, b"plan_into, hand_back");
    plan_handed_back(out, table, budget);
    put_part_name(out, b"plan");
    plan(out, table, budget);
}

// The table of a text with its own budget; a refused text has no plan.
pub(crate) fn all_three(out: &impl Print, text: &[u8]) {
    match reader::read(text) {
        Ok(table) => in_three_ways(out, table, table.budget),
        Err(refused) => put_refusal(out, refused),
    }
}

// `plan_into` with a budget beside the table, under a name.
fn plan_with(out: &impl Print, name: &[u8], table: Table, budget: u64) {
    put_part_name(out, name);
    plan_into_places(out, table, budget, PLACES, PLACES);
}

// The text read once, and its table planned with several budgets beside it. A refused text has the table without records, which
// is refused as well.
pub(crate) fn turn_the_knob(out: &impl Print, text: &[u8]) {
    let table = reader::read(text).unwrap_or(Table::without_records());
    plan_with(out, b"its own budget", table, table.budget);
    plan_with(out, b"budget 0", table, 0);
    plan_with(out, b"the most budget", table, MOST_BUDGET);
    put_part_name(out, b"one more");
    in_three_ways(out, table, MOST_BUDGET + 1);
    plan_with(out, b"as much as a number can say", table, u64::MAX);
}
