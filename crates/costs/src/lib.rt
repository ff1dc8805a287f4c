// The supplied cost table: asked by model number, it answers the seven costs of document 01.
#![tactic(auto)]

ghost use Rattle.std.specs.Prelude.{◌≡◌};
ghost use Rattle.rules.specs.Answers.{supplied_says};
ghost use Rattle.rules.specs.Costs.{supplied_costs};

use rules::{Refusal, Refused};

// A row for each model, in the order of the speeds.
const COSTS: [[u64; 7]; 3] = [
    [129600, 302500, 409600, 532900, 672400, 828100, 1000000],
    [791645, 681421, 697825, 742141, 809179, 895801, 1000000],
    [1453689, 1060341, 986050, 951382, 945957, 963501, 1000000],
];

// The costs of model 1, 2 or 3; any other is refused.
pub fn supplied(model: u64) -> Result<[u64; 7], Refused>
    ensures { supplied_says result ≡ supplied_costs model }
{
    if model < 1 || 3 < model {
        return Err(Refusal::Model.at(0));
    }
    Ok(COSTS[(model - 1) as usize])
}
