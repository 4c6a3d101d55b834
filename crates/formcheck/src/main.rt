// Prints what the rows of refusal say of each file that its arguments name: the name, a space, and 0 where the file is good or the
// number of its refusal. The first letters of a name tell the kind of file. Plan and slot files are tried for the plant in plant.bin.
#![tactic(auto)]

ghost use Rattle.std.specs.Prelude.{◌≡◌};
ghost use Rattle.sections.specs.Rows.{number_of};
ghost use Rattle.formcheck.specs.Answer.{answer_of};

use files::{Argument, FileBytes, argument_count};
use plan_file::plan_form;
use plant_file::plant_form;
use sections::{Refusal, Shape};
use slot_file::slot_form;
use std::rt::{Env, Files};

#[derive(Clone, Copy, Debug, PartialEq, Eq)]
enum Kind {
    Plant,
    Plan,
    Slots,
}

// The kind of file that a name tells: slots.., plan-.. or plan.., and plant.. for any other.
fn kind_of(name: &[u8]) -> Kind {
    match name {
        [b's', _, _, _, _, ..] => Kind::Slots,
        [_, _, _, _, b't', ..] => Kind::Plant,
        [_, _, _, _, _, ..] => Kind::Plan,
        _ => Kind::Plant,
    }
}

fn number(form: Result<Shape, Refusal>) -> u32
    ensures { result ≡ number_of form }
{
    match form {
        Ok(_) => 0,
        Err(refusal) => refusal.number(),
    }
}

fn answer(kind: Kind, file: &[u8], plant: Shape) -> u32
    ensures { result ≡ answer_of kind file.now plant }
{
    number(match kind {
        Kind::Plant => plant_form(file),
        Kind::Plan => plan_form(file, plant),
        Kind::Slots => slot_form(file, plant),
    })
}

fn report(rt: &(impl Env + Files + Print), i: usize, plant: Shape) {
    let mut argument = Argument::empty();
    argument.read_argument(rt, i);
    let name = argument.as_slice();
    let mut file = FileBytes::empty();
    file.read_file(rt, name);
    let number = answer(kind_of(name), file.as_slice(), plant);
    let _ = rt.write_all(name);
    let _ = println!(rt; " {number}");
}

fn report_all(rt: &(impl Env + Files + Print), plant: Shape) {
    for i in 1..argument_count(rt) {
        report(rt, i, plant);
    }
}

fn main(rt: HostRuntime) {
    let mut file = FileBytes::empty();
    file.read_file(&rt, b"plant.bin");
    match plant_form(file.as_slice()) {
        Ok(plant) => report_all(&rt, plant),
        Err(_) => {
            let _ = println!(rt; "plant.bin is no plant");
        }
    }
}
