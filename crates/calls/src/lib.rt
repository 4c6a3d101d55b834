// Checking a plan, and writing what a call answers.
#![tactic(auto)]

ghost use Rattle.std.specs.Prelude.{◌≡◌};
ghost use Rattle.calls.specs.Check.{check_of};

mod writer;

use passed_plan::judge_files;
use sections::Refusal;
use units::Profit;
pub use writer::FileWriter;

// Level A: the plant's rows, then the plan's, then the rules, each in order.
#[tactic(auto, unfolding(crate::specs::Check::check_of))]
pub fn check_plan(plant: &[u8], plan: &[u8]) -> Result<Profit, Refusal>
    ensures { result ≡ check_of plant.now plan.now }
{
    let passed = judge_files(plant, plan)?;
    Ok(passed.profit)
}
