// The cycles to allocate to a job, from the mean and the variance of its cycles and the assurance that they are enough.
#![tactic(auto)]

ghost use Rattle.std.specs.Prelude.{true, [], ◌∷◌, ◌≡◌, ◌≤◌};
ghost use Rattle.rules.specs.Answers.{allocated_says, good};
ghost use Rattle.rules.specs.Cycles.{allocation, asked_in_range, enough};
ghost use Rattle.rules.specs.TableText.{most_cycles};

use rules::{MOST_CYCLES, Refusal, Refused};

const MOST_VARIANCE: u64 = 1000000000000;

// In thousandths.
const MOST_ASSURANCE: u64 = 999;

fn in_range(mean: u64, variance: u64, assurance: u64) -> bool
    ensures { result ≡ asked_in_range mean variance assurance }
{
    rules::within(1, MOST_CYCLES, mean)
        && rules::within(0, MOST_VARIANCE, variance)
        && rules::within(0, MOST_ASSURANCE, assurance)
}

// Whether c cycles are enough. In range no product here wraps.
fn enough(mean: u64, variance: u64, assurance: u64, c: u64) -> bool
    requires { (asked_in_range mean variance assurance ≡ true) × (mean ≤ c) × (c ≤ most_cycles) }
    ensures { result ≡ enough mean variance assurance c }
{
    let excess = c - mean;
    assurance * variance <= excess * excess * (1000 - assurance)
}

// The least number of cycles that is enough, by bisection: high always is, fewer than low never are.
fn least(mean: u64, variance: u64, assurance: u64) -> u64
    requires { (asked_in_range mean variance assurance ≡ true) × (enough mean variance assurance most_cycles ≡ true) }
    ensures { allocation mean variance assurance ≡ good (result ∷ []) }
{
    let mut low = mean;
    let mut high = MOST_CYCLES;
    // a `while`: what is halved are numbers, and no slice that the library could search
    while low < high {
        let middle = low + (high - low) / 2;
        if enough(mean, variance, assurance, middle) {
            high = middle;
        } else {
            low = middle + 1;
        }
    }
    low
}

// The cycles that document 01 allocates, or its refusal, for any three numbers.
pub fn allocate(mean: u64, variance: u64, assurance: u64) -> Result<u64, Refused>
    ensures { allocated_says result ≡ allocation mean variance assurance }
{
    if !in_range(mean, variance, assurance) {
        return Err(Refusal::Range.at(0));
    }
    if !enough(mean, variance, assurance, MOST_CYCLES) {
        return Err(Refusal::Allocation.at(0));
    }
    Ok(least(mean, variance, assurance))
}
