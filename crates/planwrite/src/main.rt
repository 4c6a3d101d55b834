// Level C as a program: planwrite PLANT SLOTS OUT writes the plan file of a run without a stop to OUT, and prints its length. A refusal prints
// its number and leaves OUT as it was.
#![tactic(auto)]

use files::run_call;
use plan_writing::plan_writing;

#[tactic(auto, using(files::proofs::Delivered::delivered))]
fn main(rt: HostRuntime) {
    run_call(&rt, "usage: planwrite PLANT SLOTS OUT", plan_writing);
}
