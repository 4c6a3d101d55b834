// The calls for C and Rust. Each returns 0, or the number of the refusal, and then nothing behind a pointer is changed.
// include/doxkarin.h declares them.
#![tactic(auto)]

ghost use Rattle.std.specs.Prelude.{◌≡◌};
ghost use Rattle.calls.specs.Check.{check_of};
ghost use Rattle.calls.specs.Answer.{slot_answer, plan_answer, roll_answer, written_in, output_after};
ghost use Rattle.doxkarin.specs.Codes.{code_of, value_after, check_code, profit_after, written_code, length_after};

use calls::check_plan;
use plan_writing::plan_writing;
use rolling::roll;
use sections::Refusal;
use slot_return::slot_return;

// 0 and the value of an answer behind the pointer, or the number of the refusal and what was there.
fn answer<T: Copy>(outcome: Result<T, Refusal>, place: &mut T) -> u32
    ensures { (result ≡ code_of outcome) × (place.new ≡ value_after outcome place.old) }
{
    match outcome {
        Ok(value) => {
            *place = value;
            0
        }
        Err(refusal) => refusal.number(),
    }
}

// The same of the length of what was written.
fn answer_length(written: Result<usize, Refusal>, length: &mut u64) -> u32
    ensures { (result ≡ written_code written) × (length.new ≡ length_after written length.old) }
{
    answer(written.map(|n| n as u64), length)
}

// Level A: the exact profit of a plan that passes, in thousandths of a cent.
#[unsafe(no_mangle)]
pub extern "C" fn doxkarin_check(plant: &[u8], plan: &[u8], profit: &mut i64) -> u32
    ensures code { result ≡ check_code (check_of plant.now plan.now) }
    ensures value { profit.new ≡ profit_after (check_of plant.now plan.now) profit.old }
{
    let checked = check_plan(plant, plan);
    answer(checked.map(|p| p.0), profit)
}

// Level B: the slot file of a plan that passes, at the start of the output, and its length.
#[unsafe(no_mangle)]
pub extern "C" fn doxkarin_slots(plant: &[u8], plan: &[u8], out: &mut [u8], length: &mut u64) -> u32
    ensures code { result ≡ written_code (written_in (slot_answer plant.now plan.now) out.old) }
    ensures size { length.new
        ≡ length_after (written_in (slot_answer plant.now plan.now) out.old) length.old }
    ensures output { out.new ≡ output_after (slot_answer plant.now plan.now) out.old }
{
    let written = slot_return(plant, plan, out);
    answer_length(written, length)
}

// Level C: the plan file of a slot file's run, at the start of the output, and its length.
#[unsafe(no_mangle)]
pub extern "C" fn doxkarin_plan(plant: &[u8], slots: &[u8], out: &mut [u8], length: &mut u64) -> u32
    ensures code { result ≡ written_code (written_in (plan_answer plant.now slots.now) out.old) }
    ensures size { length.new
        ≡ length_after (written_in (plan_answer plant.now slots.now) out.old) length.old }
    ensures output { out.new ≡ output_after (plan_answer plant.now slots.now) out.old }
{
    let written = plan_writing(plant, slots, out);
    answer_length(written, length)
}

// Rolling on: the plant file of the weeks after the first k of a plan that passes, with new rates, at the start of the output, and its length.
#[unsafe(no_mangle)]
pub extern "C" fn doxkarin_roll(
    plant: &[u8],
    plan: &[u8],
    k: u64,
    rates: &[u8],
    out: &mut [u8],
    length: &mut u64,
) -> u32
    ensures code { result
        ≡ written_code (written_in (roll_answer plant.now plan.now k rates.now) out.old) }
    ensures size { length.new
        ≡ length_after (written_in (roll_answer plant.now plan.now k rates.now) out.old)
        length.old }
    ensures output { out.new
        ≡ output_after (roll_answer plant.now plan.now k rates.now) out.old }
{
    let written = roll(plant, plan, k, rates, out);
    answer_length(written, length)
}
