// The offered calls for C and Rust: include/cuddlelamb.h says what each promises. An answer is told in numbers: 0 and 0
// where nothing is refused, or else the refusal's number and line.
#![tactic(auto)]

ghost use Rattle.std.specs.Prelude.{◌≡◌};
ghost use Rattle.boundary.specs.Told.{AllocateTold, CostsTold, ListTold, ListWithTold, PlanTold, ReadTold, RoomsTold, WriteTold};
ghost use Rattle.boundary.specs.Told.{costs_says, cycles_says, plan_says, read_says, rooms_says, text_says};
ghost use Rattle.rules.specs.Answers.{allocated_says, decision_says, panel_says, reading_says, supplied_says, written_says};
ghost use Rattle.rules.specs.Plan.{taken_with};

use costs::supplied;
use cycles::allocate;
use listing::{list, list_with_budget};
use planner::plan_into;
use reader::read;
use rules::{Decision, Panel, Refused, Table};
use writer::write;

// The number of an answer that is none of the refusals.
const NOT_REFUSED: u64 = 0;

// A plan's job count, speed and energy.
#[repr(C)]
#[derive(Clone, Copy)]
pub struct PlanAnswer {
    pub number: u64,
    pub line: u64,
    pub count: u64,
    pub speed: u64,
    pub energy: u64,
}

impl From<Result<Decision, Refused>> for PlanAnswer {
    ghost from_gives = { λ told answer. plan_says answer ≡ decision_says told };

    fn from(told: Result<Decision, Refused>) -> PlanAnswer {
        match told {
            Ok(decision) => PlanAnswer {
                number: NOT_REFUSED,
                line: 0,
                count: decision.count as u64,
                speed: decision.speed,
                energy: decision.energy,
            },
            Err(refused) => PlanAnswer {
                number: u64::from(refused.why),
                line: refused.line,
                count: 0,
                speed: 0,
                energy: 0,
            },
        }
    }
}

// How many bytes were written.
#[repr(C)]
#[derive(Clone, Copy)]
pub struct TextAnswer {
    pub number: u64,
    pub line: u64,
    pub length: u64,
}

impl From<Result<usize, Refused>> for TextAnswer {
    ghost from_gives = { λ told answer. text_says answer ≡ written_says told };

    fn from(told: Result<usize, Refused>) -> TextAnswer {
        match told {
            Ok(length) => TextAnswer {
                number: NOT_REFUSED,
                line: 0,
                length: length as u64,
            },
            Err(refused) => TextAnswer {
                number: u64::from(refused.why),
                line: refused.line,
                length: 0,
            },
        }
    }
}

// The table of a text.
#[repr(C)]
#[derive(Clone, Copy)]
pub struct TableAnswer {
    pub number: u64,
    pub line: u64,
    pub table: Table,
}

impl From<Result<Table, Refused>> for TableAnswer {
    ghost from_gives = { λ told answer. read_says answer ≡ reading_says told };

    fn from(told: Result<Table, Refused>) -> TableAnswer {
        match told {
            Ok(table) => TableAnswer {
                number: NOT_REFUSED,
                line: 0,
                table,
            },
            Err(refused) => TableAnswer {
                number: u64::from(refused.why),
                line: refused.line,
                table: Table::without_records(),
            },
        }
    }
}

// The cycles allocated.
#[repr(C)]
#[derive(Clone, Copy)]
pub struct CyclesAnswer {
    pub number: u64,
    pub line: u64,
    pub cycles: u64,
}

impl From<Result<u64, Refused>> for CyclesAnswer {
    ghost from_gives = { λ told answer. cycles_says answer ≡ allocated_says told };

    fn from(told: Result<u64, Refused>) -> CyclesAnswer {
        match told {
            Ok(cycles) => CyclesAnswer {
                number: NOT_REFUSED,
                line: 0,
                cycles,
            },
            Err(refused) => CyclesAnswer {
                number: u64::from(refused.why),
                line: refused.line,
                cycles: 0,
            },
        }
    }
}

// A cost model's seven costs.
#[repr(C)]
#[derive(Clone, Copy)]
pub struct CostsAnswer {
    pub number: u64,
    pub line: u64,
    pub costs: [u64; 7],
}

impl From<Result<[u64; 7], Refused>> for CostsAnswer {
    ghost from_gives = { λ told answer. costs_says answer ≡ supplied_says told };

    fn from(told: Result<[u64; 7], Refused>) -> CostsAnswer {
        match told {
            Ok(costs) => CostsAnswer {
                number: NOT_REFUSED,
                line: 0,
                costs,
            },
            Err(refused) => CostsAnswer {
                number: u64::from(refused.why),
                line: refused.line,
                costs: [0; 7],
            },
        }
    }
}

// How many turns there were, and the room that is left at the end.
#[repr(C)]
#[derive(Clone, Copy)]
pub struct RoomsAnswer {
    pub number: u64,
    pub line: u64,
    pub turns: u64,
    pub room: u64,
}

impl From<Result<Panel, Refused>> for RoomsAnswer {
    ghost from_gives = { λ told answer. rooms_says answer ≡ panel_says told };

    fn from(told: Result<Panel, Refused>) -> RoomsAnswer {
        match told {
            Ok(panel) => RoomsAnswer {
                number: NOT_REFUSED,
                line: 0,
                turns: panel.turns as u64,
                room: panel.room,
            },
            Err(refused) => RoomsAnswer {
                number: u64::from(refused.why),
                line: refused.line,
                turns: 0,
                room: 0,
            },
        }
    }
}

#[unsafe(no_mangle)]
pub extern "C" fn cuddlelamb_plan(
    table: Table,
    budget: u64,
    order: &mut [u64],
    fates: &mut [u64],
) -> PlanAnswer
    ensures { PlanTold (taken_with table budget) order.old fates.old result order.new fates.new }
{
    plan_into(table, budget, order, fates).into()
}

#[unsafe(no_mangle)]
pub extern "C" fn cuddlelamb_list(text: &[u8], out: &mut [u8]) -> TextAnswer
    ensures { ListTold text.now out.old result out.new }
{
    list(text, out).into()
}

#[unsafe(no_mangle)]
pub extern "C" fn cuddlelamb_list_with_budget(
    text: &[u8],
    budget: u64,
    out: &mut [u8],
) -> TextAnswer
    ensures { ListWithTold text.now budget out.old result out.new }
{
    list_with_budget(text, budget, out).into()
}

#[unsafe(no_mangle)]
pub extern "C" fn cuddlelamb_read(text: &[u8]) -> TableAnswer
    ensures { ReadTold text.now result }
{
    read(text).into()
}

#[unsafe(no_mangle)]
pub extern "C" fn cuddlelamb_write(table: Table, out: &mut [u8]) -> TextAnswer
    ensures { WriteTold table out.old result out.new }
{
    write(table, out).into()
}

#[unsafe(no_mangle)]
pub extern "C" fn cuddlelamb_allocate(mean: u64, variance: u64, assurance: u64) -> CyclesAnswer
    ensures { AllocateTold mean variance assurance result }
{
    allocate(mean, variance, assurance).into()
}

#[unsafe(no_mangle)]
pub extern "C" fn cuddlelamb_costs(model: u64) -> CostsAnswer
    ensures { CostsTold model result }
{
    supplied(model).into()
}

#[unsafe(no_mangle)]
pub extern "C" fn cuddlelamb_rooms(
    table: Table,
    budget: u64,
    turns: &mut [u64],
    rooms: &mut [u64],
) -> RoomsAnswer
    ensures { RoomsTold (taken_with table budget) turns.old rooms.old result turns.new rooms.new }
{
    planner::rooms(table, budget, turns, rooms).into()
}
