// Rolling on as a program: planroll PLANT PLAN K RATES OUT writes the plant file of the weeks after the first K of a plan that passes, with the
// rates of a list, to OUT, and prints its length. A refusal prints its number and leaves OUT as it was.
#![tactic(auto)]

use files::{FileBytes, argument_count, deliver, large_buffer, named_number};
use rolling::roll;
use std::rt::{Env, Files};

// With three files and a number, where `files::run_call` has two files.
#[tactic(auto, using(files::proofs::Delivered::delivered))]
fn write_plant(rt: &(impl Env + Files + Print + Eprint), k: u64) {
    let mut plant = FileBytes::empty();
    plant.read_named(rt, 1);
    let mut plan = FileBytes::empty();
    plan.read_named(rt, 2);
    let mut rates = FileBytes::empty();
    rates.read_named(rt, 4);
    let mut out = large_buffer();
    let written = roll(
        plant.as_slice(),
        plan.as_slice(),
        k,
        rates.as_slice(),
        &mut out,
    );
    deliver(rt, written, &out, 5);
}

fn main(rt: HostRuntime) {
    if argument_count(&rt) == 6
        && let Some(k) = named_number(&rt, 3)
    {
        write_plant(&rt, k);
    } else {
        let _ = eprintln!(rt; "usage: planroll PLANT PLAN K RATES OUT");
    }
}
