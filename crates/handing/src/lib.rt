// The front part of a lent buffer, handed back as long as a plan.
#![tactic(auto)]

ghost use Rattle.handing.specs.Promises.{HandedBack};

use rules::{Decision, Refused};

// "The planner returns the filled front part of the caller's &mut slice, of length equal to the plan": empty where the
// decision is a refusal, all of a buffer that is shorter.
pub fn hand_back<'a>(order: &'a mut [u64], decision: Result<Decision, Refused>) -> &'a mut [u64]
    ensures { HandedBack order.old order.entry.ref_ptr decision result.now result.ref_ptr }
{
    let count = decision.map_or(0, |decision| decision.count);
    if order.len() < count {
        return order;
    }
    &mut order[..count]
}
