// The calls of `boundary` for C and Rust, as a static library: each calls the function of that name there, and promises what that
// one promises. include/cuddlelamb.h says it for callers.
#![tactic(auto)]

ghost use Rattle.boundary.specs.Told.{AllocateTold, CostsTold, ListTold, ListWithTold, PlanTold, ReadTold, RoomsTold, WriteTold};
ghost use Rattle.rules.specs.Plan.{taken_with};

use boundary::{CostsAnswer, CyclesAnswer, PlanAnswer, RoomsAnswer, TableAnswer, TextAnswer};
use rules::Table;

#[unsafe(no_mangle)]
pub extern "C" fn cuddlelamb_plan(
    table: Table,
    budget: u64,
    order: &mut [u64],
    fates: &mut [u64],
) -> PlanAnswer
    ensures { PlanTold (taken_with table budget) order.old fates.old result order.new fates.new }
{
    boundary::cuddlelamb_plan(table, budget, order, fates)
}

#[unsafe(no_mangle)]
pub extern "C" fn cuddlelamb_list(text: &[u8], out: &mut [u8]) -> TextAnswer
    ensures { ListTold text.now out.old result out.new }
{
    boundary::cuddlelamb_list(text, out)
}

#[unsafe(no_mangle)]
pub extern "C" fn cuddlelamb_list_with_budget(
    text: &[u8],
    budget: u64,
    out: &mut [u8],
) -> TextAnswer
    ensures { ListWithTold text.now budget out.old result out.new }
{
    boundary::cuddlelamb_list_with_budget(text, budget, out)
}

#[unsafe(no_mangle)]
pub extern "C" fn cuddlelamb_read(text: &[u8]) -> TableAnswer
    ensures { ReadTold text.now result }
{
    boundary::cuddlelamb_read(text)
}

#[unsafe(no_mangle)]
pub extern "C" fn cuddlelamb_write(table: Table, out: &mut [u8]) -> TextAnswer
    ensures { WriteTold table out.old result out.new }
{
    boundary::cuddlelamb_write(table, out)
}

#[unsafe(no_mangle)]
pub extern "C" fn cuddlelamb_allocate(mean: u64, variance: u64, assurance: u64) -> CyclesAnswer
    ensures { AllocateTold mean variance assurance result }
{
    boundary::cuddlelamb_allocate(mean, variance, assurance)
}

#[unsafe(no_mangle)]
pub extern "C" fn cuddlelamb_costs(model: u64) -> CostsAnswer
    ensures { CostsTold model result }
{
    boundary::cuddlelamb_costs(model)
}

#[unsafe(no_mangle)]
pub extern "C" fn cuddlelamb_rooms(
    table: Table,
    budget: u64,
    turns: &mut [u64],
    rooms: &mut [u64],
) -> RoomsAnswer
    ensures { RoomsTold (taken_with table budget) turns.old rooms.old result turns.new rooms.new }
{
    boundary::cuddlelamb_rooms(table, budget, turns, rooms)
}
