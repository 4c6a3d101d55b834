// A plan file that is accepted: its numbers, and sums of them.
ghost use Rattle.std.specs.Prelude.{◌≡◌, ◌<◌, ◌^◌, Ok};
ghost use Rattle.contents.specs.Contents.{cell, Inside};
ghost use Rattle.numbers.specs.Number.{Bytes};
ghost use Rattle.plan_file.specs.Form.{plan_form};

use crate::{ArcSums, ChangeoverTable, PROFIT, PairTable, ProductTable, SALES, plan_form};
use contents::cell_in;
use numbers::signed;
use sections::{
    Refusal, Shape, copy_section, customer_sum, index2, pair_number, pair_row, square_place, volume,
};

// The bytes of a plan file that passes rows 11 to 14, and the shape of its plant.
#[derive(Clone, Copy)]
pub struct PlanFile<'a> {
    pub bytes: &'a [u8],
    pub shape: Shape,
    pub ghost accepted: { plan_form shape bytes.now ≡ Ok shape },
    pub ghost octets: { Bytes bytes.now },
}

impl<'a> PlanFile<'a> {
    ghost use Rattle.std.specs.Prelude.{ℕ, ◌+◌, ◌*◌, ◌/◌, ◌%◌, ◌≤◌, length, get_or, Err, MatchResult};
    ghost use Rattle.mathematics.specs.Below.{sum_below};
    ghost use Rattle.numbers.specs.Number.{store};
    ghost use Rattle.sections.specs.Section.{cube};
    ghost use Rattle.plan_file.specs.Tables.{product_table_of, most_of, changeover_table_of, pair_table_of, SumsOf};
    ghost use Rattle.plan_file.specs.Accepted.{plan_in};

    // By rows of its own: a plan file for a plant of this shape, or the number of the first row that turns it down.
    pub fn read(bytes: &'a [u8], shape: Shape) -> Result<PlanFile<'a>, Refusal>
        ensures { MatchResult result
            (λ plan. (plan.bytes ≡ bytes.entry) × (plan.shape ≡ shape) × (plan_form shape bytes.entry.now ≡ Ok plan.shape))
            (λ refusal. plan_form shape bytes.entry.now ≡ Err refusal) }
    {
        plan_form(bytes, shape)?;
        Ok(PlanFile { bytes, shape })
    }

    // A table's number of a product in a week.
    pub fn number(self, table: ProductTable, week: usize, product: usize) -> u64
        requires { (week < self.shape.weeks) × (product < self.shape.products) }
        ensures { (result ≡ product_table_of table (plan_in self.entry) week product) × (result < most_of table) }
    {
        let place = index2(week, self.shape.weeks, product, self.shape.products);
        number_in(self.bytes, table.place(), table.width(), place)
    }

    // The tables by the names that the rules have for them, one line each over `number`. E: whether a product is made in a week.
    pub fn assigned(self, week: usize, product: usize) -> u64
        requires { (week < self.shape.weeks) × (product < self.shape.products) }
        ensures { (result ≡ (plan_in self.entry).line.assigned week product) × (result < 2) }
    {
        self.number(ProductTable::Assigned, week, product)
    }

    // F: whether a product is the first of a week.
    pub fn first(self, week: usize, product: usize) -> u64
        requires { (week < self.shape.weeks) × (product < self.shape.products) }
        ensures { (result ≡ (plan_in self.entry).line.first week product) × (result < 2) }
    {
        self.number(ProductTable::First, week, product)
    }

    // L: whether a product is the last of a week.
    pub fn last(self, week: usize, product: usize) -> u64
        requires { (week < self.shape.weeks) × (product < self.shape.products) }
        ensures { (result ≡ (plan_in self.entry).line.last week product) × (result < 2) }
    {
        self.number(ProductTable::Last, week, product)
    }

    // O: a product's place in a week.
    pub fn position(self, week: usize, product: usize) -> u64
        requires { (week < self.shape.weeks) × (product < self.shape.products) }
        ensures { (result ≡ (plan_in self.entry).line.position week product) × (result < 2 ^ 8) }
    {
        self.number(ProductTable::Position, week, product)
    }

    // T: the minutes that a product is made in a week.
    pub fn minutes(self, week: usize, product: usize) -> u64
        requires { (week < self.shape.weeks) × (product < self.shape.products) }
        ensures { (result ≡ (plan_in self.entry).line.minutes week product) × (result < 2 ^ 16) }
    {
        self.number(ProductTable::Minutes, week, product)
    }

    // P: the grams of a product made in a week.
    pub fn production(self, week: usize, product: usize) -> u64
        requires { (week < self.shape.weeks) × (product < self.shape.products) }
        ensures { (result ≡ (plan_in self.entry).production week product) × (result < 2 ^ 32) }
    {
        self.number(ProductTable::Production, week, product)
    }

    // V: the grams of a product in stock after a week.
    pub fn inventory(self, week: usize, product: usize) -> u64
        requires { (week < self.shape.weeks) × (product < self.shape.products) }
        ensures { (result ≡ (plan_in self.entry).inventory week product) × (result < 2 ^ 32) }
    {
        self.number(ProductTable::Inventory, week, product)
    }

    // The sum of a week's numbers.
    pub fn week_sum(self, table: ProductTable, week: usize) -> u64
        requires { week < self.shape.weeks }
        ensures { (result ≡ sum_below self.entry.shape.products (product_table_of table (plan_in self.entry) week))
            × (result < 2 ^ 8 * most_of table) }
    {
        let mut sum = 0;
        for product in 0..usize::from(self.shape.products) {
            sum += self.number(table, week, product);
        }
        sum
    }

    // Whether there is a changeover, by arc: the product before times the count of products, plus the product after.
    pub fn arc_changeover(self, table: ChangeoverTable, week: usize, arc: usize) -> u64
        requires { (week < self.shape.weeks) × (arc < self.shape.products * self.shape.products) }
        ensures { (result ≡ changeover_table_of table (plan_in self.entry).line week
            (arc / self.entry.shape.products) (arc % self.entry.shape.products)) × (result < 2) }
    {
        let place = square_place(
            week,
            self.shape.weeks,
            arc,
            self.shape.products,
            self.shape.products,
        );
        cell_in(self.bytes, table.place(), 1, place)
    }

    // The same from one product to another.
    pub fn changeover(self, table: ChangeoverTable, week: usize, from: usize, to: usize) -> u64
        requires { (week < self.shape.weeks) × (from < self.shape.products) × (to < self.shape.products) }
        ensures { (result ≡ changeover_table_of table (plan_in self.entry).line week from to) × (result < 2) }
    {
        self.arc_changeover(
            table,
            week,
            index2(from, self.shape.products, to, self.shape.products),
        )
    }

    // Adds the marks out of one product to the sums into each, and says their sum.
    fn add_row(self, table: ChangeoverTable, week: usize, from: usize, into: &mut [u8; 16]) -> u8
        requires { (week < self.shape.weeks) × (from < self.shape.products) × (self.shape.products ≤ 16) × (length into.old ≡ 16)
            × ((j : ℕ) → j < self.shape.products → get_or into.old j 0 ≤ from) }
        ensures { (length into.new ≡ 16) × ((j : ℕ) → j < self.entry.shape.products
            → get_or into.new j 0 ≡ get_or into.old j 0 + changeover_table_of table (plan_in self.entry).line week from j)
            × ((j : ℕ) → j < self.entry.shape.products → get_or into.new j 0 ≤ from + 1)
            × (result ≡ sum_below self.entry.shape.products (changeover_table_of table (plan_in self.entry).line week from)) }
    {
        let mut sum: u8 = 0;
        for to in 0..usize::from(self.shape.products) {
            let mark = self.changeover(table, week, from, to) as u8;
            into[to] += mark;
            sum += mark;
        }
        sum
    }

    // The sums of a week's marks into each product and out of it.
    pub fn arc_sums(self, table: ChangeoverTable, week: usize) -> ArcSums
        requires { (week < self.shape.weeks) × (self.shape.products ≤ 16) }
        ensures { SumsOf self.entry.shape.products (changeover_table_of table (plan_in self.entry).line week) result }
    {
        let mut into = [0; 16];
        let mut out = [0; 16];
        for from in 0..usize::from(self.shape.products) {
            out[from] = self.add_row(table, week, from, &mut into);
        }
        ArcSums { into, out }
    }

    // A table's number of a pair (customer times the count of products, plus product) in a week.
    pub fn pair_number(self, table: PairTable, pair: usize, week: usize) -> u64
        requires { (pair < self.shape.customers * self.shape.products) × (week < self.shape.weeks) }
        ensures { (result ≡ pair_table_of table (plan_in self.entry)
            (pair / self.entry.shape.products) (pair % self.entry.shape.products) week) × (result < 2 ^ 32) }
    {
        let row = pair_row(self.bytes, self.shape, table.place(), pair);
        pair_number(self.bytes, self.shape, row, week)
    }

    // The grams of a product sold in a week, over all customers: one line over `sections`, with the place of a plan's sales, as is
    // `write_sales`.
    pub fn sold(self, week: usize, product: usize) -> u64
        requires { (week < self.shape.weeks) × (product < self.shape.products) }
        ensures { (result ≡ sum_below self.entry.shape.customers (λ c. (plan_in self.entry).sales c product week)) × (result < 2 ^ 40) }
    {
        customer_sum(self.bytes, self.shape, SALES, product, week)
    }

    // Stores section 29's bytes at the start of what is lent.
    pub fn write_sales(self, out: &mut [u8])
        requires { 4 * (self.shape.customers * self.shape.products * self.shape.weeks) ≤ length out.old }
        ensures { out.new ≡ store out.old 0
            (cube 4 self.entry.shape.customers self.entry.shape.products self.entry.shape.weeks (plan_in self.entry).sales) }
    {
        let numbers = volume(self.shape.customers, self.shape.products, self.shape.weeks);
        copy_section(out, self.bytes, SALES, 4, numbers);
    }

    // The profit in thousandths of a cent.
    pub fn profit(self) -> i64
        ensures { result ≡ (plan_in self.entry).profit }
    {
        signed(cell_in(self.bytes, PROFIT, 8, 0))
    }
}

// Number `place` of those of `width` bytes that a section holds.
fn number_in(s: &[u8], section: usize, width: usize, place: usize) -> u64
    requires { Inside s.now section width place }
    ensures { (result ≡ cell width s.now section place) × (result < 256 ^ width) }
{
    cell_in(s, section, width, place)
}
