// A client of checking, slot return and plan writing: a plan that passes, its slots, and the plan back from them.
#![tactic(auto)]

ghost use Rattle.std.specs.Prelude.{◌≡◌};
ghost use Rattle.calls.specs.Check.{check_of};
ghost use Rattle.calls.specs.Answer.{slot_answer, written_in, output_after};
ghost use Rattle.round_trip.specs.RoundTrip.{plan_again, round_trip};

use calls::check_plan;
use plan_writing::plan_writing;
use sections::Refusal;
use slot_return::slot_return;
use units::Profit;

// The plan file that came back: its length and its profit.
#[derive(Clone, Copy)]
pub struct Back {
    pub length: usize,
    pub profit: Profit,
}

// Checks the plan, takes its slots, writes the plan of these slots, and checks what was written.
pub fn round_trip(
    plant: &[u8],
    plan: &[u8],
    slots: &mut [u8],
    again: &mut [u8],
) -> Result<Back, Refusal>
    ensures result { result ≡ round_trip (check_of plant.now plan.now)
        (written_in (plan_again plant.now plan.now slots.old) again.old) }
    ensures slots { slots.new ≡ output_after (slot_answer plant.now plan.now) slots.old }
    ensures plan { again.new
        ≡ output_after (plan_again plant.now plan.now slots.old) again.old }
{
    check_plan(plant, plan)?;
    let n = slot_return(plant, plan, slots)?;
    let length = plan_writing(plant, &slots[..n], again)?;
    let profit = check_plan(plant, &again[..length])?;
    Ok(Back { length, profit })
}
