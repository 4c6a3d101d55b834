// Slot return: the slots of a plan that passes the rules, as a file.
#![tactic(auto)]

ghost use Rattle.std.specs.Prelude.{◌≡◌, ◌*◌, ◌≤◌, ◌<◌, length};
ghost use Rattle.mathematics.specs.Below.{sum_below};
ghost use Rattle.calls.specs.Answer.{slot_answer, written_in, output_after};
ghost use Rattle.passed_plan.specs.Shown.{week_count, Ordered};

use calls::FileWriter;
use contents::BodyLengths;
use numbers::write;
use passed_plan::{PassedPlan, product_at, slot_total, week_count};
use plan_file::PlanFile;
use sections::Refusal;
use slot_file::{COUNTS, SLOT_BYTES, SLOTS, slot_length, write_slot};

// A plan file in which each slot of each week has its product, and how many slots it shows in all.
#[derive(Clone, Copy)]
struct ShownSlots<'a> {
    plan: PlanFile<'a>,
    total: usize,
    ghost ordered: { Ordered plan.shape plan.bytes.now },
    ghost counted: { total ≡ sum_below plan.shape.weeks (week_count plan.shape plan.bytes.now) },
    ghost few: { total ≤ 65025 },
}

impl ShownSlots<'_> {
    ghost use Rattle.numbers.specs.Number.{store};
    ghost use Rattle.slot_file.specs.File.{slot_bytes};
    ghost use Rattle.slot_return.specs.Bodies.{count_in, week_in, body_in};

    // Stores section 41: the slots per week.
    fn write_counts(self, out: &mut [u8])
        requires { self.plan.shape.weeks ≤ length out.old }
        ensures { out.new ≡ store out.old 0 (body_in self.entry 0) }
    {
        for week in 0..usize::from(self.plan.shape.weeks) {
            let count = week_count(self.plan, week);
            write(out, week, 1, count as u64);
        }
    }

    // Stores the slots of a week at the start of what is lent.
    fn write_week(self, out: &mut [u8], week: usize)
        requires { (week < self.plan.shape.weeks) × (3 * count_in self week ≤ length out.old) }
        ensures { out.new ≡ store out.old 0 (slot_bytes (week_in self.entry week)) }
    {
        for k in 0..week_count(self.plan, week) {
            let product = product_at(self.plan, week, k);
            let minutes = self.plan.minutes(week, product);
            write_slot(&mut out[SLOT_BYTES * k..], product as u64, minutes);
        }
    }

    // Stores section 42: all slots.
    #[tactic(auto, using(crate::proofs::ShownFile::weeks_room))]
    fn write_weeks(self, out: &mut [u8])
        requires { 3 * self.total ≤ length out.old }
        ensures { out.new ≡ store out.old 0 (body_in self.entry 1) }
    {
        let mut first = 0;
        for week in 0..usize::from(self.plan.shape.weeks) {
            self.write_week(&mut out[SLOT_BYTES * first..], week);
            first += week_count(self.plan, week);
        }
    }
}

impl FileWriter for ShownSlots<'_> {
    ghost use Rattle.sections.specs.Layout.{slot_kind};
    ghost use Rattle.slot_file.specs.File.{slot_bodies};
    ghost use Rattle.slot_return.specs.Bodies.{slots_in};

    ghost kind = { slot_kind };

    ghost bodies = { λ x. slot_bodies x.plan.shape (slots_in x) };

    #[tactic(auto, using(crate::proofs::ShownFile::listed))]
    fn body_lengths(self) -> BodyLengths {
        slot_file::body_lengths(self.plan.shape, self.total)
    }

    #[tactic(auto, using(crate::proofs::ShownFile::file_size))]
    fn file_length(self) -> usize {
        slot_length(self.plan.shape, self.total)
    }

    #[tactic(auto, using(crate::proofs::ShownFile::bodies_count, crate::proofs::ShownFile::body_size))]
    fn write_body(self, out: &mut [u8], place: usize) {
        match place {
            COUNTS => self.write_counts(out),
            SLOTS => self.write_weeks(out),
            _ => self.plan.write_sales(out),
        }
    }
}

// The slots of a plan that passes, as a file at the start of the output: its length, or the number of the first refusal.
pub fn slot_return(plant: &[u8], plan: &[u8], out: &mut [u8]) -> Result<usize, Refusal>
    ensures result { result ≡ written_in (slot_answer plant.now plan.now) out.old }
    ensures output { out.new ≡ output_after (slot_answer plant.now plan.now) out.old }
{
    let passed = PassedPlan::read(plant, plan)?;
    let plan = passed.files.plan;
    let total = slot_total(plan);
    ShownSlots { plan, total }.write_where_room(out)
}
