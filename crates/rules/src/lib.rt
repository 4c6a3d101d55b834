// The model's rules 31 to 41 over a plant file and a plan file.
#![tactic(auto)]

ghost use Rattle.std.specs.Prelude.{◌≡◌, ◌+◌, ◌*◌, ◌/◌, ◌%◌, ◌≤◌, ◌<◌, ◌^◌, eqb, pos, ◌-ℤ◌};
ghost use Rattle.mathematics.specs.Below.{sum_below, all_below};
ghost use Rattle.mathematics.specs.Week.{rule31, rule32, rule34};
ghost use Rattle.plant_file.specs.Accepted.{plant_in};
ghost use Rattle.plan_file.specs.Accepted.{plan_in};
ghost use Rattle.plan_file.specs.Tables.{changeover_table_of};
ghost use Rattle.rules.specs.Rules.{week_of, mounted_after, inventory_before, same_integer};
ghost use Rattle.rules.specs.Rules.{rule33, rule35, rule36, rule37, rule38, rule39, rule40, rule41};
ghost use Rattle.rules.specs.Rules.{run_at, production_at, backlog_at, inventory_at, storage_at, changeovers_under, changeovers_in};
ghost use Rattle.rules.specs.Rules.{revenue_in, changeover_charge_in, backlog_charge_in, inventory_charge_in};
ghost use Rattle.rules.specs.Verdict.{verdict_of};

mod week;

use costs::{changeover, is_mounted, opening_mounted};
use plan_file::{ArcSums, ChangeoverTable, PairTable, PlanFile, ProductTable};
use plant_file::PlantFile;
use sections::{Refusal, area};
use std::ops::Range;
use units::{
    Cents, Changeover, Grams, Minutes, Profit, Rate, Thousandths, UnitCost, charge, in_thousandths,
    produced,
};
pub use week::{is_shut, production_end};
use week::{marks_in, positions_in, sequence_in};

// A plan file to be judged, and the plant file of its plant.
#[derive(Clone, Copy)]
pub struct Candidate<'plant, 'plan> {
    pub plant: PlantFile<'plant>,
    pub plan: PlanFile<'plan>,
    pub ghost same: { plan.shape ≡ plant.shape },
}

// Whether a mass balances over a week: what is there after it and what has left are what was there before and what has come. A function, since
// rules 38 and 39 call it, and it says the bound under which neither sum overflows.
fn balanced(after: Grams, left: Grams, before: Grams, come: Grams) -> bool
    requires { (after.0 < 2 ^ 40) × (left.0 < 2 ^ 40) × (before.0 < 2 ^ 40) × (come.0 < 2 ^ 40) }
    ensures { result ≡ eqb (after.0 + left.0) (before.0 + come.0) }
{
    Grams(after.0 + left.0) == Grams(before.0 + come.0)
}

// A count under a mark of 0 or 1: by itself, since its bound takes a lemma.
fn marked(mark: u64, n: u64) -> u64
    requires { (mark < 2) × (n < 2 ^ 24) }
    ensures { result ≡ mark * n }
{
    mark * n
}

// What a changeover takes where it is marked. A function, since it says that no more is taken than without the mark, which bounds
// the sum over all arcs.
fn charged(mark: u64, one: Changeover) -> Changeover
    requires { mark < 2 }
    ensures { (result.minutes.0 ≡ mark * one.minutes.0) × (result.cents.0 ≡ mark * one.cents.0)
        × (result.minutes.0 ≤ one.minutes.0) × (result.cents.0 ≤ one.cents.0) }
{
    if mark == 1 {
        return one;
    }
    Changeover {
        minutes: Minutes(0),
        cents: Cents(0),
    }
}

// What sales bring, and what the backlog costs.
#[derive(Clone, Copy, Debug, PartialEq, Eq)]
struct Market {
    sales: Thousandths,
    backlog: Thousandths,
}

// Whether the profit is what is gained less what is lost. A function, since it says the bound under which the difference is one of i64.
fn is_profit(profit: Profit, gained: Thousandths, lost: Thousandths) -> bool
    requires { (gained.0 < 2 ^ 63) × (lost.0 < 2 ^ 63) }
    ensures { result ≡ same_integer profit.0 (pos gained.0 -ℤ pos lost.0) }
{
    profit.0 == (gained.0 as i64) - (lost.0 as i64)
}

impl Candidate<'_, '_> {
    // The plant's products.
    fn products(self) -> Range<usize>
        ensures { result ≡ record { start = 0; end = self.entry.plant.shape.products } }
    {
        0..usize::from(self.plant.shape.products)
    }

    // Its weeks.
    fn weeks(self) -> Range<usize>
        ensures { result ≡ record { start = 0; end = self.entry.plant.shape.weeks } }
    {
        0..usize::from(self.plant.shape.weeks)
    }

    // ---- rule 33

    // Whether a product is mounted after so many weeks, of which the last produces: 1, else 0, which the rule multiplies by.
    pub fn mounted_after(self, weeks: usize, product: usize) -> u64
        requires { (weeks ≤ self.plant.shape.weeks) × (product < self.plant.shape.products) }
        ensures { (result ≡ mounted_after (plant_in self.entry.plant).line (plan_in self.entry.plan).line weeks product) × (result < 2) }
    {
        if weeks == 0 {
            return is_mounted(opening_mounted(self.plant), product);
        }
        self.plan.last(weeks - 1, product)
    }

    // How many products are mounted then.
    fn mounted_sum(self, weeks: usize) -> u64
        requires { weeks ≤ self.plant.shape.weeks }
        ensures { (result ≡ sum_below self.entry.plant.shape.products
            (mounted_after (plant_in self.entry.plant).line (plan_in self.entry.plan).line weeks)) × (result < 2 ^ 24) }
    {
        let mut sum = 0;
        for product in 0..usize::from(self.plant.shape.products) {
            sum += self.mounted_after(weeks, product);
        }
        sum
    }

    // 33 in a week.
    fn passages_in(self, week: usize) -> bool
        requires { week < self.plant.shape.weeks }
        ensures { result ≡ rule33 self.entry.plant.shape.products (plant_in self.entry.plant).line (plan_in self.entry.plan).line week }
    {
        let ArcSums { into, out } = self.plan.arc_sums(ChangeoverTable::Between, week);
        let weeks = production_end(self.plan, week);
        let mounted = self.mounted_sum(weeks);
        let firsts = self.plan.week_sum(ProductTable::First, week);
        self.products().all(|product| {
            u64::from(into[product]) == marked(self.plan.first(week, product), mounted)
                && u64::from(out[product]) == marked(self.mounted_after(weeks, product), firsts)
        })
    }

    // ---- rules 35, 37, 39 and 40, each tried at every product by itself

    // 35 of a product.
    fn run_at(self, week: usize, product: usize) -> bool
        requires { (week < self.plant.shape.weeks) × (product < self.plant.shape.products) }
        ensures { let p = plant_in self.entry.plant in
            result ≡ run_at p.shortest_run p.week_minutes (plan_in self.entry.plan).line week product }
    {
        let made = self.plan.assigned(week, product);
        let least = Minutes(self.plant.shortest_run() * made);
        let most = Minutes(self.plant.week_minutes() * made);
        let time = Minutes(self.plan.minutes(week, product));
        least <= time && time <= most
    }

    // 35 in a week.
    fn runs_in(self, week: usize) -> bool
        requires { week < self.plant.shape.weeks }
        ensures { let p = plant_in self.entry.plant in
            result ≡ rule35 p.products p.shortest_run p.week_minutes (plan_in self.entry.plan).line week }
    {
        self.products().all(|product| self.run_at(week, product))
    }

    // 37 of a product.
    fn production_at(self, week: usize, product: usize) -> bool
        requires { (week < self.plant.shape.weeks) × (product < self.plant.shape.products) }
        ensures { result ≡ production_at (plant_in self.entry.plant) (plan_in self.entry.plan) week product }
    {
        let time = Minutes(self.plan.minutes(week, product));
        let mass = Grams(self.plan.production(week, product));
        mass == produced(Rate(self.plant.rate(product)), time)
    }

    // 37 in a week.
    fn production_in(self, week: usize) -> bool
        requires { week < self.plant.shape.weeks }
        ensures { result ≡ rule37 (plant_in self.entry.plant) (plan_in self.entry.plan) week }
    {
        self.products()
            .all(|product| self.production_at(week, product))
    }

    // The mass of a product in stock before a week.
    fn inventory_before(self, week: usize, product: usize) -> Grams
        requires { (week < self.plant.shape.weeks) × (product < self.plant.shape.products) }
        ensures { (result.0 ≡ inventory_before (plant_in self.entry.plant) (plan_in self.entry.plan) week product) × (result.0 < 2 ^ 32) }
    {
        if week == 0 {
            return Grams(self.plant.opening_inventory(product));
        }
        Grams(self.plan.inventory(week - 1, product))
    }

    // 39 of a product.
    fn inventory_at(self, week: usize, product: usize) -> bool
        requires { (week < self.plant.shape.weeks) × (product < self.plant.shape.products) }
        ensures { result ≡ inventory_at (plant_in self.entry.plant) (plan_in self.entry.plan) week product }
    {
        let after = Grams(self.plan.inventory(week, product));
        let sales = Grams(self.plan.sold(week, product));
        let before = self.inventory_before(week, product);
        let made = Grams(self.plan.production(week, product));
        balanced(after, sales, before, made)
    }

    // 39 in a week.
    fn inventory_in(self, week: usize) -> bool
        requires { week < self.plant.shape.weeks }
        ensures { result ≡ rule39 (plant_in self.entry.plant) (plan_in self.entry.plan) week }
    {
        self.products()
            .all(|product| self.inventory_at(week, product))
    }

    // 40 of a product.
    fn storage_at(self, week: usize, product: usize) -> bool
        requires { (week < self.plant.shape.weeks) × (product < self.plant.shape.products) }
        ensures { result ≡ storage_at (plant_in self.entry.plant) (plan_in self.entry.plan) week product }
    {
        let least = Grams(self.plant.least_storage(product));
        let most = Grams(self.plant.greatest_storage(product));
        let mass = Grams(self.plan.inventory(week, product));
        least <= mass && mass <= most
    }

    // 40 in a week.
    fn storage_in(self, week: usize) -> bool
        requires { week < self.plant.shape.weeks }
        ensures { result ≡ rule40 (plant_in self.entry.plant) (plan_in self.entry.plan) week }
    {
        self.products()
            .all(|product| self.storage_at(week, product))
    }

    // ---- rule 36

    // What a week's changeovers of a table take: at most 256 of them, so that their minutes and cents stay below 2^32. They are summed as u32,
    // of which a register holds twice as many.
    fn changeovers_under(self, table: ChangeoverTable, week: usize) -> Changeover
        requires { week < self.plant.shape.weeks }
        ensures { let p = plant_in self.entry.plant in let marks = changeover_table_of table (plan_in self.entry.plan).line week in
            (result.minutes.0 ≡ changeovers_under p.products p.line.changeover_minutes marks)
            × (result.cents.0 ≡ changeovers_under p.products p.line.changeover_cents marks)
            × (result.minutes.0 < 2 ^ 32) × (result.cents.0 < 2 ^ 32) }
    {
        let mut minutes: u32 = 0;
        let mut cents: u32 = 0;
        for arc in 0..area(self.plant.shape.products, self.plant.shape.products) {
            let mark = self.plan.arc_changeover(table, week, arc);
            let taken = charged(mark, changeover(self.plant, arc));
            minutes += taken.minutes.0 as u32;
            cents += taken.cents.0 as u32;
        }
        Changeover {
            minutes: Minutes(u64::from(minutes)),
            cents: Cents(u64::from(cents)),
        }
    }

    // What a week's changeovers take, within the week and from what is mounted before.
    #[tactic(auto, unfolding(crate::specs::Rules::changeovers_in))]
    fn changeovers(self, week: usize) -> Changeover
        requires { week < self.plant.shape.weeks }
        ensures { let p = plant_in self.entry.plant in let x = (plan_in self.entry.plan).line in
            (result.minutes.0 ≡ changeovers_in p.products p.line.changeover_minutes x week)
            × (result.cents.0 ≡ changeovers_in p.products p.line.changeover_cents x week)
            × (result.minutes.0 < 2 ^ 33) × (result.cents.0 < 2 ^ 33) }
    {
        let within = self.changeovers_under(ChangeoverTable::Within, week);
        let between = self.changeovers_under(ChangeoverTable::Between, week);
        Changeover {
            minutes: Minutes(within.minutes.0 + between.minutes.0),
            cents: Cents(within.cents.0 + between.cents.0),
        }
    }

    // The minutes of a week's runs.
    fn running(self, week: usize) -> Minutes
        requires { week < self.plant.shape.weeks }
        ensures { (result.0 ≡ sum_below self.entry.plant.shape.products ((plan_in self.entry.plan).line.minutes week)) × (result.0 < 2 ^ 24) }
    {
        Minutes(self.plan.week_sum(ProductTable::Minutes, week))
    }

    // 36
    #[tactic(auto, unfolding(crate::specs::Rules::rule36))]
    fn week_fits(self, week: usize) -> bool
        requires { week < self.plant.shape.weeks }
        ensures { let p = plant_in self.entry.plant in result ≡ rule36 p.products p.week_minutes p.line (plan_in self.entry.plan).line week }
    {
        let run = self.running(week);
        let over = self.changeovers(week);
        let used = Minutes(run.0 + over.minutes.0);
        let most = Minutes(self.plant.week_minutes());
        used <= most
    }

    // ---- rule 38

    // 38 of a pair (customer times the count of products, plus product) in all weeks. All are tried, as in rule 34.
    #[tactic(auto, unfolding(crate::specs::Rules::backlog_before))]
    fn backlog_over(self, pair: usize) -> bool
        requires { pair < self.plant.shape.customers * self.plant.shape.products }
        ensures { let p = plant_in self.entry.plant in
            result ≡ all_below p.weeks (backlog_at p (plan_in self.entry.plan) (pair / p.products) (pair % p.products)) }
    {
        let mut before = self.plant.pair_opening_backlog(pair);
        let mut kept = true;
        for week in 0..usize::from(self.plant.shape.weeks) {
            let after = self.plan.pair_number(PairTable::Backlog, pair, week);
            let sales = self.plan.pair_number(PairTable::Sales, pair, week);
            let demand = self.plant.pair_demand(pair, week);
            kept &= balanced(Grams(after), Grams(sales), Grams(before), Grams(demand));
            before = after;
        }
        kept
    }

    // 38 in all weeks: the files hold the weeks of a pair side by side.
    fn backlog_kept(self) -> bool
        ensures { let p = plant_in self.entry.plant in result ≡ all_below p.weeks (rule38 p (plan_in self.entry.plan)) }
    {
        (0..area(self.plant.shape.customers, self.plant.shape.products)).all(
            |pair| self.backlog_over(pair),
        )
    }

    // ---- rule 41

    // A pair's market over all weeks.
    fn pair_market(self, pair: usize) -> Market
        requires { pair < self.plant.shape.customers * self.plant.shape.products }
        ensures { let p = plant_in self.entry.plant in let x = plan_in self.entry.plan in
            (result.sales.0 ≡ p.price (pair / p.products) (pair % p.products)
            * sum_below p.weeks (x.sales (pair / p.products) (pair % p.products)))
            × (result.backlog.0 ≡ p.backlog_cost (pair / p.products) (pair % p.products)
            * sum_below p.weeks (x.backlog (pair / p.products) (pair % p.products)))
            × (result.sales.0 < 2 ^ 54) × (result.backlog.0 < 2 ^ 54) }
    {
        let mut sales = 0;
        let mut backlog = 0;
        for week in 0..usize::from(self.plant.shape.weeks) {
            sales += self.plan.pair_number(PairTable::Sales, pair, week);
            backlog += self.plan.pair_number(PairTable::Backlog, pair, week);
        }
        Market {
            sales: charge(UnitCost(self.plant.pair_price(pair)), Grams(sales)),
            backlog: charge(UnitCost(self.plant.pair_backlog_cost(pair)), Grams(backlog)),
        }
    }

    // The market over all weeks.
    #[tactic(auto, using(crate::proofs::Candidates::pairs_few))]
    fn total_market(self) -> Market
        ensures { let p = plant_in self.entry.plant in let x = plan_in self.entry.plan in
            (result.sales.0 ≡ sum_below p.weeks (revenue_in p x)) × (result.backlog.0 ≡ sum_below p.weeks (backlog_charge_in p x))
            × (result.sales.0 < 2 ^ 62) × (result.backlog.0 < 2 ^ 62) }
    {
        let mut sales = 0;
        let mut backlog = 0;
        for pair in 0..area(self.plant.shape.customers, self.plant.shape.products) {
            let one = self.pair_market(pair);
            sales += one.sales.0;
            backlog += one.backlog.0;
        }
        Market {
            sales: Thousandths(sales),
            backlog: Thousandths(backlog),
        }
    }

    // What a week's inventory costs.
    #[tactic(auto, unfolding(crate::specs::Rules::inventory_charge_in))]
    fn inventory_charge(self, week: usize) -> Thousandths
        requires { week < self.plant.shape.weeks }
        ensures { (result.0 ≡ inventory_charge_in (plant_in self.entry.plant) (plan_in self.entry.plan) week) × (result.0 < 2 ^ 56) }
    {
        let mut sum = 0;
        for product in 0..usize::from(self.plant.shape.products) {
            let cost = UnitCost(self.plant.inventory_cost(product));
            let held = charge(cost, Grams(self.plan.inventory(week, product)));
            sum += held.0;
        }
        Thousandths(sum)
    }

    // What a week's changeovers cost.
    #[tactic(auto, unfolding(crate::specs::Rules::changeover_charge_in))]
    fn changeover_charge(self, week: usize) -> Thousandths
        requires { week < self.plant.shape.weeks }
        ensures { (result.0 ≡ changeover_charge_in (plant_in self.entry.plant) (plan_in self.entry.plan) week) × (result.0 < 2 ^ 56) }
    {
        in_thousandths(self.changeovers(week).cents)
    }

    // What changeovers and inventory cost over all weeks.
    fn running_costs(self) -> Thousandths
        ensures { let p = plant_in self.entry.plant in let x = plan_in self.entry.plan in
            (result.0 ≡ sum_below p.weeks (changeover_charge_in p x) + sum_below p.weeks (inventory_charge_in p x))
            × (result.0 < 2 ^ 62) }
    {
        let mut sum = 0;
        for week in 0..usize::from(self.plant.shape.weeks) {
            let over = self.changeover_charge(week);
            let held = self.inventory_charge(week);
            sum += over.0 + held.0;
        }
        Thousandths(sum)
    }

    // 41
    fn profit_holds(self) -> bool
        ensures { result ≡ rule41 (plant_in self.entry.plant) (plan_in self.entry.plan) }
    {
        let market = self.total_market();
        let costs = self.running_costs();
        let lost = Thousandths(costs.0 + market.backlog.0);
        let profit = Profit(self.plan.profit());
        is_profit(profit, market.sales, lost)
    }

    // ---- each rule over all weeks

    // 31
    fn marks_kept(self) -> bool
        ensures { let p = plant_in self.entry.plant in let x = plan_in self.entry.plan in
            result ≡ all_below p.weeks (λ w. rule31 p.products (week_of x.line w)) }
    {
        self.weeks().all(|week| marks_in(self.plan, week))
    }

    // 32
    fn sequence_kept(self) -> bool
        ensures { let p = plant_in self.entry.plant in let x = plan_in self.entry.plan in
            result ≡ all_below p.weeks (λ w. rule32 p.products (week_of x.line w)) }
    {
        self.weeks().all(|week| sequence_in(self.plan, week))
    }

    // 33
    fn passages_kept(self) -> bool
        ensures { let p = plant_in self.entry.plant in let x = plan_in self.entry.plan in
            result ≡ all_below p.weeks (rule33 p.products p.line x.line) }
    {
        self.weeks().all(|week| self.passages_in(week))
    }

    // 34
    fn positions_kept(self) -> bool
        ensures { let p = plant_in self.entry.plant in let x = plan_in self.entry.plan in
            result ≡ all_below p.weeks (λ w. rule34 p.products (week_of x.line w)) }
    {
        self.weeks().all(|week| positions_in(self.plan, week))
    }

    // 35
    fn runs_kept(self) -> bool
        ensures { let p = plant_in self.entry.plant in let x = plan_in self.entry.plan in
            result ≡ all_below p.weeks (rule35 p.products p.shortest_run p.week_minutes x.line) }
    {
        self.weeks().all(|week| self.runs_in(week))
    }

    // 36
    fn weeks_fit(self) -> bool
        ensures { let p = plant_in self.entry.plant in let x = plan_in self.entry.plan in
            result ≡ all_below p.weeks (rule36 p.products p.week_minutes p.line x.line) }
    {
        self.weeks().all(|week| self.week_fits(week))
    }

    // 37
    fn production_kept(self) -> bool
        ensures { let p = plant_in self.entry.plant in let x = plan_in self.entry.plan in
            result ≡ all_below p.weeks (rule37 p x) }
    {
        self.weeks().all(|week| self.production_in(week))
    }

    // 39
    fn inventory_kept(self) -> bool
        ensures { let p = plant_in self.entry.plant in let x = plan_in self.entry.plan in
            result ≡ all_below p.weeks (rule39 p x) }
    {
        self.weeks().all(|week| self.inventory_in(week))
    }

    // 40
    fn storage_kept(self) -> bool
        ensures { let p = plant_in self.entry.plant in let x = plan_in self.entry.plan in
            result ≡ all_below p.weeks (rule40 p x) }
    {
        self.weeks().all(|week| self.storage_in(week))
    }

    // ---- the verdict

    // The first rule that a plan breaks, or its profit. Each rule is tried over all weeks before the next, and none after one that is broken.
    #[tactic(auto, unfolding(
    // the list of the rules, and how it is walked
    crate::specs::Verdict::verdict_of, crate::specs::Verdict::trials, crate::specs::Verdict::tried, crate::specs::Verdict::profit_tried))]
    pub fn judge(self) -> Result<Profit, Refusal>
        ensures { result ≡ verdict_of (plant_in self.entry.plant) (plan_in self.entry.plan) }
    {
        if !self.marks_kept() {
            return Err(Refusal::Ends);
        }
        if !self.sequence_kept() {
            return Err(Refusal::Sequence);
        }
        if !self.passages_kept() {
            return Err(Refusal::Passage);
        }
        if !self.positions_kept() {
            return Err(Refusal::Position);
        }
        if !self.runs_kept() {
            return Err(Refusal::RunMinutes);
        }
        if !self.weeks_fit() {
            return Err(Refusal::WeekMinutes);
        }
        if !self.production_kept() {
            return Err(Refusal::Production);
        }
        if !self.backlog_kept() {
            return Err(Refusal::Backlog);
        }
        if !self.inventory_kept() {
            return Err(Refusal::Inventory);
        }
        if !self.storage_kept() {
            return Err(Refusal::Storage);
        }
        if !self.profit_holds() {
            return Err(Refusal::Profit);
        }
        Ok(Profit(self.plan.profit()))
    }
}
