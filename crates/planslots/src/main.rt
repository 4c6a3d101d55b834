// Level B as a program: planslots PLANT PLAN OUT writes the slot file of a plan that passes to OUT, and prints its length. A refusal prints
// its number and leaves OUT as it was.
#![tactic(auto)]

use files::run_call;
use slot_return::slot_return;

#[tactic(auto, using(files::proofs::Delivered::delivered))]
fn main(rt: HostRuntime) {
    run_call(&rt, "usage: planslots PLANT PLAN OUT", slot_return);
}
