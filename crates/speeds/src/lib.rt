// Step 9 of "From jobs to a plan", by document 02's A1: the speed that a plan is run at, and the energy.
#![tactic(auto)]

ghost use Rattle.std.specs.Prelude.{◌≡◌};
ghost use Rattle.entries.specs.Promises.{cycles_at};
ghost use Rattle.speeds.specs.Promises.{Cheapest, Choosable, ChosenSpeed, EnergiesInRange, FirstInTime};

use columns::{Columns, Terms};
use entries::in_time;
use rules::Speed;

// No speed of a table is faster. (`records`, which says so of a line, and `speeds` know nothing of each other.)
const MOST_MHZ: u64 = 4000;

// The speed of a plan, and its energy.
#[derive(Clone, Copy)]
pub struct Chosen {
    pub speed: Speed,
    pub energy: u64,
}

// Faster is never later, so that the first speed at which every entry ends by its termination is found by halving: at each
// speed before it some entry ends late, from it on none does. The lowest speed is tried first, for where there is time
// enough it is the one. Where no speed is in time, the count of speeds. std's search asks its test of any speed, so the test goes
// no higher than a table's.
fn first_in_time(speeds: &[Speed], places: &[u64], jobs: &Columns, terms: Terms) -> usize
    requires { Choosable speeds.now places.now jobs.now.cycles jobs.now.termination terms }
    ensures { FirstInTime speeds.now places.now jobs.now.cycles jobs.now.termination terms result }
{
    let late = |speed: &Speed| !in_time(places, jobs, terms.clock, speed.mhz.min(MOST_MHZ));
    if !speeds.first().is_some_and(late) {
        return 0;
    }
    speeds.partition_point(late)
}

// "the one with the least energy, and among equals the lowest": a higher one takes the place only where it has less. So an empty
// plan, whose energy is 0 at every speed, stays at the first.
fn cheapest(speeds: &[Speed], total: u64) -> Option<Speed>
    requires { EnergiesInRange speeds.now total }
    ensures { Cheapest speeds.now total result }
{
    let (mut least, higher) = speeds.split_first()?;
    for speed in higher {
        if total * speed.cost < total * least.cost {
            least = speed;
        }
    }
    Some(*least)
}

// Step 9: "among the speeds that qualify". Those in time are the last ones; if the cheapest of them is over the budget, all are.
// "The energy is that product", of all cycles, which the plan record has.
pub fn choose_speed(
    speeds: &[Speed],
    places: &[u64],
    all_cycles: u64,
    jobs: &Columns,
    terms: Terms,
) -> Chosen
    requires { Choosable speeds.now places.now jobs.now.cycles jobs.now.termination terms × (all_cycles ≡ cycles_at jobs.now.cycles places.now) }
    ensures { ChosenSpeed speeds.now places.now jobs.now.cycles jobs.now.termination terms result }
{
    let none = Chosen {
        speed: Speed { mhz: 0, cost: 0 },
        energy: 0,
    };
    let first = first_in_time(speeds, places, jobs, terms);
    let Some(speed) = cheapest(&speeds[first..], all_cycles) else {
        return none;
    };
    let energy = all_cycles * speed.cost;
    if terms.budget < energy {
        return none;
    }
    Chosen { speed, energy }
}
