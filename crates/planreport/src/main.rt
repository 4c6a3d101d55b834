// Prints whether a plan passes, with its profit or the number of its refusal, and a line for each slot of a plan that does.
// The two arguments name the plant file and the plan file; with none they are plant.bin and plan.bin.
#![tactic(auto)]

use files::{FileBytes, argument_count};
use report::report_text;

// Not inlined: `main` would hold the room of the text where it prints its usage, too.
#[inline(never)]
fn print_report(rt: &impl Print, plant: &FileBytes, plan: &FileBytes) {
    let mut text = [0; 16384];
    let n = report_text(plant.as_slice(), plan.as_slice(), &mut text);
    let _ = rt.write_all(&text[..n]);
}

fn main(rt: HostRuntime) {
    let mut plant = FileBytes::empty();
    let mut plan = FileBytes::empty();
    match argument_count(&rt) {
        1 => {
            plant.read_file(&rt, b"plant.bin");
            plan.read_file(&rt, b"plan.bin");
        }
        3 => {
            plant.read_named(&rt, 1);
            plan.read_named(&rt, 2);
        }
        _ => {
            let _ = eprintln!(rt; "usage: planreport [PLANT PLAN]");
            return;
        }
    }
    print_report(&rt, &plant, &plan);
}
