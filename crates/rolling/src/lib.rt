// Rolling on: the plant of the weeks that are left after the first k of a plan that passes, with new rates, as a file.
#![tactic(auto)]

ghost use Rattle.std.specs.Prelude.{◌≡◌, ◌≤◌, ◌<◌};
ghost use Rattle.plant_file.specs.Accepted.{plant_in};
ghost use Rattle.plan_file.specs.Accepted.{plan_in};
ghost use Rattle.model.specs.Rolled.{weeks_left};
ghost use Rattle.calls.specs.Answer.{roll_passed, roll_answer, written_in, output_after};

use calls::FileWriter;
use contents::BodyLengths;
use costs::mounted_number;
use numbers::write;
use passed_plan::{PassedPlan, mounted_product};
use plan_file::PairTable;
use plant_file::{RateList, plant_length, write_mounted, write_shape};
use rules::{Candidate, is_shut};
use sections::{Refusal, Shape, area};

// Whether k is from 1 to one less than the weeks.
fn has_weeks_left(f: Shape, k: u64) -> bool
    ensures { result ≡ weeks_left f.weeks k }
{
    (1..u64::from(f.weeks)).contains(&k)
}

// A plan that passes and its plant, how many of its weeks have run, and the rates of the weeks that are left.
#[derive(Clone, Copy)]
struct Rolled<'a> {
    files: Candidate<'a, 'a>,
    rates: RateList<'a>,
    weeks: usize,
    ghost some: { 1 ≤ weeks },
    ghost left: { weeks < files.plant.shape.weeks },
    ghost listed: { rates.shape ≡ files.plant.shape },
}

impl Rolled<'_> {
    ghost use Rattle.std.specs.Prelude.{◌++◌, ◌+◌, ◌*◌, ◌/◌, ◌%◌, ◌-◌, length};
    ghost use Rattle.numbers.specs.Number.{encode, store};
    ghost use Rattle.sections.specs.Section.{grid, cube};
    ghost use Rattle.model.specs.Rolled.{backlog_carried};
    ghost use Rattle.rolling.specs.Left.{left_shape, left_plant};

    // Whether no backlog after the weeks that have run exceeds what a plant file may have at its opening.
    fn is_backlog_carried(self) -> bool
        ensures { let x = self.entry.files in result ≡ backlog_carried (plant_in x.plant) (plan_in x.plan) self.entry.weeks }
    {
        let f = self.files.plant.shape;
        (0..area(f.customers, f.products)).all(|pair| self.backlog(pair)
            <= plant_file::MOST_OPENING_BACKLOG)
    }

    // A pair's backlog after these weeks.
    fn backlog(self, pair: usize) -> u64
        requires { pair < self.files.plant.shape.customers * self.files.plant.shape.products }
        ensures { let f = self.entry.files.plant.shape in
            result ≡ (plan_in self.entry.files.plan).backlog (pair / f.products) (pair % f.products) (self.entry.weeks - 1) }
    {
        self.files
            .plan
            .pair_number(PairTable::Backlog, pair, self.weeks - 1)
    }

    // The shape of the plant that is left.
    fn shape(self) -> Shape
        ensures { result ≡ left_shape self.entry }
    {
        let f = self.files.plant.shape;
        Shape {
            kind: 4,
            products: f.products,
            customers: f.customers,
            weeks: f.weeks - self.weeks as u8,
        }
    }

    // Stores a pair's demand of the weeks that are left.
    fn write_demand_row(self, out: &mut [u8], pair: usize)
        requires { (pair < self.files.plant.shape.customers * self.files.plant.shape.products)
            × (4 * (self.files.plant.shape.weeks - self.weeks) ≤ length out.old) }
        ensures { let p = plant_in self.entry.files.plant in out.new ≡ store out.old 0
            (encode 4 (p.weeks - self.entry.weeks) (λ w. p.demand (pair / p.products) (pair % p.products) (self.entry.weeks + w))) }
    {
        let plant = self.files.plant;
        let row = plant.demand_row(pair);
        for week in 0..usize::from(plant.shape.weeks) - self.weeks {
            let demand = row.demand(self.weeks + week);
            write(out, 4 * week, 4, demand);
        }
    }

    // Stores section 5, pair by pair.
    fn write_demand(self, out: &mut [u8])
        requires { let f = self.files.plant.shape in 4 * (f.customers * f.products * (f.weeks - self.weeks)) ≤ length out.old }
        ensures { let p = plant_in self.entry.files.plant in out.new ≡ store out.old 0
            (cube 4 p.customers p.products (p.weeks - self.entry.weeks) (λ c i w. p.demand c i (self.entry.weeks + w))) }
    {
        let f = self.files.plant.shape;
        let size = 4 * (usize::from(f.weeks) - self.weeks);
        for pair in 0..area(f.customers, f.products) {
            self.write_demand_row(&mut out[size * pair..], pair);
        }
    }

    // Stores the inventory after the weeks that have run.
    fn write_inventory(self, out: &mut [u8])
        requires { 4 * self.files.plant.shape.products ≤ length out.old }
        ensures { out.new ≡ store out.old 0
            (encode 4 self.entry.files.plant.shape.products ((plan_in self.entry.files.plan).inventory (self.entry.weeks - 1))) }
    {
        for product in 0..usize::from(self.files.plant.shape.products) {
            let held = self.files.plan.inventory(self.weeks - 1, product);
            write(out, 4 * product, 4, held);
        }
    }

    // Stores the backlog after them.
    fn write_backlog(self, out: &mut [u8])
        requires { 4 * (self.files.plant.shape.customers * self.files.plant.shape.products) ≤ length out.old }
        ensures { let f = self.entry.files.plant.shape in out.new ≡ store out.old 0
            (grid 4 f.customers f.products (λ c i. (plan_in self.entry.files.plan).backlog c i (self.entry.weeks - 1))) }
    {
        let f = self.files.plant.shape;
        for pair in 0..area(f.customers, f.products) {
            write(out, 4 * pair, 4, self.backlog(pair));
        }
    }

    // Stores section 10: inventory, then backlog.
    fn write_opening(self, out: &mut [u8])
        requires { 4 * ((1 + self.files.plant.shape.customers) * self.files.plant.shape.products) ≤ length out.old }
        ensures { let f = self.entry.files.plant.shape in let x = plan_in self.entry.files.plan in out.new ≡ store out.old 0
            (encode 4 f.products (x.inventory (self.entry.weeks - 1))
            ++ grid 4 f.customers f.products (λ c i. x.backlog c i (self.entry.weeks - 1))) }
    {
        self.write_inventory(out);
        let at = 4 * usize::from(self.files.plant.shape.products);
        self.write_backlog(&mut out[at..]);
    }

    // What is mounted after them, as section 12 has it.
    fn mounted(self) -> u64
        ensures { result ≡ (left_plant self.entry).line.mounted }
    {
        let mounted = mounted_product(self.files, self.weeks);
        mounted_number(mounted)
    }

    // 1 if the last of them is shut, else 0, as section 12 has it.
    fn shut_before(self) -> u64
        ensures { result ≡ (left_plant self.entry).line.shut_before }
    {
        u64::from(is_shut(self.files.plan, self.weeks - 1))
    }
}

impl FileWriter for Rolled<'_> {
    ghost use Rattle.plant_file.specs.Kinds.{file_kind};
    ghost use Rattle.plant_file.specs.File.{plant_bodies};
    ghost use Rattle.rolling.specs.Left.{left_plant};

    ghost kind = { file_kind 4 };

    ghost bodies = { λ x. plant_bodies (left_plant x) };

    #[tactic(auto, using(crate::proofs::RolledBodies::left_lengths))]
    fn body_lengths(self) -> BodyLengths {
        plant_file::body_lengths(self.shape())
    }

    #[tactic(auto, using(crate::proofs::RolledBodies::file_size))]
    fn file_length(self) -> usize {
        plant_length(self.shape())
    }

    #[tactic(auto, using(crate::proofs::RolledBodies::twelve, crate::proofs::RolledBodies::body_size))]
    fn write_body(self, out: &mut [u8], place: usize) {
        match place {
            plant_file::SHAPE => write_shape(out, self.shape()),
            plant_file::RATE => self.rates.write(out),
            plant_file::DEMAND => self.write_demand(out),
            plant_file::OPENING => self.write_opening(out),
            plant_file::MOUNTED => write_mounted(out, self.mounted(), self.shut_before()),
            _ => self.files.plant.copy_body(out, place),
        }
    }
}

// What follows the plan's checks: k, the rates, the backlog, and the room.
fn roll_passed(out: &mut [u8], files: Candidate, k: u64, rates: &[u8]) -> Result<usize, Refusal>
    ensures result { let x = files.entry in
        result ≡ written_in (roll_passed x.plant.shape x.plant.bytes.now x.plan.bytes.now k rates.now) out.old }
    ensures output { let x = files.entry in
        out.new ≡ output_after (roll_passed x.plant.shape x.plant.bytes.now x.plan.bytes.now k rates.now) out.old }
{
    if !has_weeks_left(files.plant.shape, k) {
        return Err(Refusal::WeeksLeft);
    }
    let rates = RateList::read(rates, files.plant.shape)?;
    let rolled = Rolled {
        files,
        rates,
        weeks: k as usize,
    };
    if !rolled.is_backlog_carried() {
        return Err(Refusal::OpeningBacklog);
    }
    rolled.write_where_room(out)
}

// The plant file of the weeks after the first k, with the rates of a list, at the start of the output: its length, or the number of the first
// refusal.
pub fn roll(
    plant: &[u8],
    plan: &[u8],
    k: u64,
    rates: &[u8],
    out: &mut [u8],
) -> Result<usize, Refusal>
    ensures result { result ≡ written_in (roll_answer plant.now plan.now k rates.now) out.old }
    ensures output { out.new
        ≡ output_after (roll_answer plant.now plan.now k rates.now) out.old }
{
    let passed = PassedPlan::read(plant, plan)?;
    roll_passed(out, passed.files, k, rates)
}
