// "The listing": the program's lines into a lent buffer.
#![tactic(auto)]

ghost use Rattle.std.specs.Prelude.{◌≡◌, ◌≤◌, length};
ghost use Rattle.beside.specs.Listed.{Listable, taken_for, wrote};
ghost use Rattle.grammar.specs.Put.{put};
ghost use Rattle.listing.specs.Promises.{FateRows, Finishable, OrderRows};
ghost use Rattle.listing.specs.Texts.{FewRows, plan_text};
ghost use Rattle.rules.specs.Listing.{lines_for, listing, listing_with};
ghost use Rattle.rules.specs.Refusals.{taken, written};
ghost use Rattle.rules.specs.TableText.{most_jobs, records_of};

use beside::{list_refusal, read_with};
use chains::NO_FATE;
use checks::check_table;
use columns::Columns;
use plans::decide;
use rules::{Fate, MOST_JOBS, Refusal, Refused, Table};
use trials::Plan;

// The O lines and the X lines have two numbers each, and there is one line for each job.
const ROW_FIELDS: usize = 2;

const MOST_ROW_NUMBERS: usize = ROW_FIELDS * MOST_JOBS;

// A plan's lines: the numbers of its P, and those of its O lines and of its X lines, which stand one after the other.
#[derive(Clone, Copy)]
struct PlanLines<'a> {
    speed: u64,
    energy: u64,
    count: usize,
    orders: &'a [u64],
    others: &'a [u64],
}

impl<'a> PlanLines<'a> {
    // How many bytes they have: P, then O, then X.
    fn length(&self) -> usize
        requires { FewRows self.now }
        ensures { result ≡ length (plan_text self.now) }
    {
        let numbers = [self.speed, self.energy, self.count as u64];
        let rows = digits::rows_length(self.orders, ROW_FIELDS)
            + digits::rows_length(self.others, ROW_FIELDS);
        digits::line_length(&numbers) + rows
    }

    // Writes them at the front of the buffer, and hands back their length.
    fn put(&self, out: &mut [u8]) -> usize
        requires { length (plan_text self.now) ≤ length out.old }
        ensures { (result ≡ length (plan_text self.now)) × (out.new ≡ put out.old 0 (plan_text self.now)) }
    {
        let numbers = [self.speed, self.energy, self.count as u64];
        let behind_plan = digits::put_line(out, 0, b'P', &numbers);
        let behind_orders = digits::put_rows(out, behind_plan, Some(b'O'), self.orders, ROW_FIELDS);
        digits::put_rows(out, behind_orders, Some(b'X'), self.others, ROW_FIELDS)
    }

    // Writes them where there is room for them.
    fn list(&self, out: &mut [u8]) -> Result<usize, Refused>
        requires { FewRows self.now }
        ensures { wrote result out.new ≡ written (plan_text self.now) out.old }
    {
        if out.len() < self.length() {
            return Err(Refusal::Room.at(0));
        }
        Ok(self.put(out))
    }
}

// "O job finish (absolute ms at the chosen speed: now plus the run time of all cycles up to and with this job, rounded up
// once), in plan order": the numbers of these lines, and how many they are.
fn order_rows(
    places: &[u64],
    jobs: &Columns,
    clock: u64,
    mhz: u64,
    rows: &mut [u64; MOST_ROW_NUMBERS],
) -> usize
    requires { Finishable places.now jobs.now.cycles clock mhz }
    ensures { OrderRows places.now jobs.now.number jobs.now.cycles clock mhz rows.new result }
{
    let mut run = 0;
    let mut filled = 0;
    for &noted in places {
        let place = noted as usize;
        run += jobs.cycles[place];
        rows[filled] = jobs.number[place];
        rows[filled + 1] = clock + (run * 1000).div_ceil(mhz);
        filled += ROW_FIELDS;
    }
    filled
}

// "X job fate, for each unplanned job in table order": the numbers of these lines, and how many they are.
fn fate_rows(number: &[u64; MOST_JOBS], fates: &[u64], rows: &mut [u64; MOST_ROW_NUMBERS]) -> usize
    requires { length fates.now ≤ most_jobs }
    ensures { FateRows number.now fates.now rows.new result }
{
    let planned = u64::from(Fate::Planned);
    let mut filled = 0;
    for (place, &fate) in fates.iter().enumerate() {
        if fate != planned {
            rows[filled] = number[place];
            rows[filled + 1] = fate;
            filled += ROW_FIELDS;
        }
    }
    filled
}

// The listing of a valid table, where there is room for it. The check is there to make the columns: it refuses nothing.
#[inline(never)]
fn list_table(table: &Table, out: &mut [u8]) -> Result<usize, Refused>
    requires { Listable table.now }
    ensures { wrote result out.new ≡ written (lines_for (taken (records_of table.now))) out.old }
{
    let mut jobs = Columns::new();
    let _ = check_table(&mut jobs, table);
    let mut plan = Plan::empty();
    let mut fates = [NO_FATE; MOST_JOBS];
    let decided = decide(
        &mut plan,
        &mut fates,
        table,
        table.budget,
        &jobs,
        &mut [],
        &mut [],
    );
    let mhz = decided.speed.mhz;
    let count = plan.totals.count;
    let mut orders = [0; MOST_ROW_NUMBERS];
    let order_end = order_rows(&plan.places[..count], &jobs, table.clock, mhz, &mut orders);
    let mut others = [0; MOST_ROW_NUMBERS];
    let other_end = fate_rows(&jobs.number, &fates[..table.job_count], &mut others);
    let lines = PlanLines {
        speed: mhz,
        energy: decided.energy,
        count,
        orders: &orders[..order_end],
        others: &others[..other_end],
    };
    lines.list(out)
}

// What the program prints for a text, at the front of a lent buffer, and its length.
fn list_text(text: &[u8], beside: Option<u64>, out: &mut [u8]) -> Result<usize, Refused>
    ensures { wrote result out.new ≡ written (lines_for (taken_for beside text.now)) out.old }
{
    let mut table = Table::without_records();
    match read_with(&mut table, text, beside) {
        Ok(()) => list_table(&table, out),
        Err(refused) => list_refusal(refused, out),
    }
}

// What the program prints for a text, with the text's own budget, at the front of a lent buffer, and its length; or else nothing
// is changed, and the answer is that there is no room.
#[tactic(auto, unfolding(rules::specs::Listing::listing, rules::specs::Listing::listing_of))]
pub fn list(text: &[u8], out: &mut [u8]) -> Result<usize, Refused>
    ensures { wrote result out.new ≡ listing text.now out.old }
{
    list_text(text, None, out)
}

// The same with a budget beside the text: the text's own refusal first, then that of the budget.
#[tactic(auto, unfolding(rules::specs::Listing::listing_with, rules::specs::Listing::listed_with))]
pub fn list_with_budget(text: &[u8], budget: u64, out: &mut [u8]) -> Result<usize, Refused>
    ensures { wrote result out.new ≡ listing_with text.now budget out.old }
{
    list_text(text, Some(budget), out)
}
