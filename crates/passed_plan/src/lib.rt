// Whether a plan passes, and what a plan that passes shows: how many slots each week has, which product each slot has, and what is mounted
// before each week.
#![tactic(auto)]

ghost use Rattle.std.specs.Prelude.{◌≡◌, ◌≤◌, ◌<◌, Ok};
ghost use Rattle.mathematics.specs.Below.{sum_below};
ghost use Rattle.costs.specs.Mounted.{mounted_below};
ghost use Rattle.passed_plan.specs.Judgement.{plan_judgement, judgement_of};
ghost use Rattle.passed_plan.specs.Shown.{week_count, week_product, week_mounted};

use plan_file::{PlanFile, ProductTable};
use plant_file::PlantFile;
use rules::{Candidate, production_end};
use sections::{Refusal, Shape};
use units::Profit;

// Of a plan that passes: the shape of its plant, and its profit.
#[derive(Clone, Copy, Debug, PartialEq, Eq)]
pub struct Pass {
    pub shape: Shape,
    pub profit: Profit,
}

// A plan file that passes with the plant file of its plant, and its profit.
#[derive(Clone, Copy)]
pub struct PassedPlan<'plant, 'plan> {
    pub files: Candidate<'plant, 'plan>,
    pub profit: Profit,
    pub ghost passes: { judgement_of files.plant.bytes.now files.plan.bytes.now
        ≡ Ok (record { shape = files.plant.shape; profit = profit }) },
}

impl<'plant, 'plan> PassedPlan<'plant, 'plan> {
    ghost use Rattle.std.specs.Prelude.{Err, MatchResult};

    // The files of these bytes, or the first refusal: the plant's rows, then the plan's, then the rules.
    pub fn read(
        plant: &'plant [u8],
        plan: &'plan [u8],
    ) -> Result<PassedPlan<'plant, 'plan>, Refusal>
        ensures { MatchResult result
            (λ passed. (passed.files.plant.bytes.now ≡ plant.now) × (passed.files.plan.bytes.now ≡ plan.now)
            × (judgement_of plant.now plan.now ≡ Ok (record { shape = passed.files.plant.shape; profit = passed.profit })))
            (λ refusal. judgement_of plant.now plan.now ≡ Err refusal) }
    {
        let plant = PlantFile::read(plant)?;
        let plan = PlanFile::read(plan, plant.shape)?;
        let files = Candidate { plant, plan };
        let profit = files.judge()?;
        Ok(PassedPlan { files, profit })
    }
}

// What follows the plant's rows: the plan's rows, then the rules, each in order.
#[tactic(auto, unfolding(crate::specs::Judgement::plan_judgement))]
pub fn judge_plan(plant: PlantFile, plan: &[u8]) -> Result<Pass, Refusal>
    ensures { result ≡ plan_judgement plant.entry.shape plant.entry.bytes.now plan.now }
{
    let shape = plant.shape;
    let plan = PlanFile::read(plan, shape)?;
    let profit = Candidate { plant, plan }.judge()?;
    Ok(Pass { shape, profit })
}

// The plant's rows, then the plan's, then the rules.
pub fn judge_files(plant: &[u8], plan: &[u8]) -> Result<Pass, Refusal>
    ensures { result ≡ judgement_of plant.now plan.now }
{
    let passed = PassedPlan::read(plant, plan)?;
    Ok(Pass {
        shape: passed.files.plant.shape,
        profit: passed.profit,
    })
}

// How many slots a week has.
pub fn week_count(plan: PlanFile, week: usize) -> usize
    requires { week < plan.shape.weeks }
    ensures { (result ≡ week_count plan.entry.shape plan.entry.bytes.now week) × (result ≤ plan.entry.shape.products) }
{
    plan.week_sum(ProductTable::Assigned, week) as usize
}

// How many slots there are in all.
pub fn slot_total(plan: PlanFile) -> usize
    ensures { (result ≡ sum_below plan.entry.shape.weeks (week_count plan.entry.shape plan.entry.bytes.now)) × (result ≤ 65025) }
{
    let mut sum = 0;
    for week in 0..usize::from(plan.shape.weeks) {
        sum += week_count(plan, week);
    }
    sum
}

// The product of slot k of a week: the first whose place in the week is k + 1, or N where there is none.
pub fn product_at(plan: PlanFile, week: usize, k: usize) -> usize
    requires { (week < plan.shape.weeks) × (k < 256) }
    ensures { result ≡ week_product plan.entry.shape plan.entry.bytes.now week k }
{
    let n = usize::from(plan.shape.products);
    let place = k as u64 + 1;
    (0..n)
        .position(|i| plan.position(week, i) == place)
        .unwrap_or(n)
}

// What is mounted before a week.
pub fn mounted_product(files: Candidate, week: usize) -> Option<u8>
    requires { week < files.plant.shape.weeks }
    ensures { let x = files.entry in
        (result ≡ week_mounted x.plant.shape x.plant.bytes.now x.plan.bytes.now week) × mounted_below x.plant.shape.products result }
{
    let weeks = production_end(files.plan, week);
    let mut found = None;
    for product in 0..usize::from(files.plant.shape.products) {
        if files.mounted_after(weeks, product) == 1 {
            found = Some(product as u8);
        }
    }
    found
}
