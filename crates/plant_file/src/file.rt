// A plant file that is accepted: the numbers of each section, and the copying of its bodies.
ghost use Rattle.std.specs.Prelude.{◌≡◌, ◌+◌, ◌*◌, ◌/◌, ◌%◌, ◌≤◌, ◌<◌, Ok};
ghost use Rattle.numbers.specs.Number.{Bytes};
ghost use Rattle.contents.specs.Contents.{offset};
ghost use Rattle.sections.specs.Limits.{most_demand};
ghost use Rattle.plant_file.specs.Form.{plant_form};

use crate::laid::LaidFile;
use crate::{
    BACKLOG_COST, CHANGEOVER_CENTS, CHANGEOVER_MINUTES, DEMAND, INVENTORY_COST, NOTHING_MOUNTED,
    OPENING, PRICE, RATE, STORAGE, TIME, plant_form,
};
use contents::{cell_in, entry_in};
use sections::{PairRow, Refusal, Shape, copy_section, pair_number, pair_row};

// The bytes of a plant file and its shape. It passes rows 1 to 5.
#[derive(Clone, Copy)]
pub struct PlantFile<'a> {
    pub bytes: &'a [u8],
    pub shape: Shape,
    pub ghost accepted: { plant_form bytes.now ≡ Ok shape },
    pub ghost octets: { Bytes bytes.now },
}

// Where a pair's demand stands in a file, week by week.
#[derive(Clone, Copy)]
pub struct PairDemand<'a> {
    pub file: PlantFile<'a>,
    pub pair: usize,
    pub at: usize,
    pub ghost known: { pair < file.shape.customers * file.shape.products },
    pub ghost begins: { at ≡ offset file.bytes.now 4 + 4 * (pair * file.shape.weeks) },
}

impl<'a> PlantFile<'a> {
    ghost use Rattle.std.specs.Prelude.{◌⊎◌, [], Err, MatchResult, length, get_or};
    ghost use Rattle.numbers.specs.Number.{store};
    ghost use Rattle.sections.specs.Limits.{most_rate, most_changeover_minutes, most_changeover_cents, most_unit_cost, most_storage};
    ghost use Rattle.sections.specs.Limits.{most_opening_backlog, nothing_mounted, most_week_minutes};
    ghost use Rattle.plant_file.specs.Kinds.{plant_kind};
    ghost use Rattle.plant_file.specs.Form.{plant_lengths};
    ghost use Rattle.plant_file.specs.File.{plant_bodies};
    ghost use Rattle.plant_file.specs.Accepted.{plant_in};

    // By rows of its own: the file of these bytes, or the number of the first row that turns it down.
    pub fn read(bytes: &'a [u8]) -> Result<PlantFile<'a>, Refusal>
        ensures { MatchResult result
            (λ plant. (plant.bytes.now ≡ bytes.now) × (plant_form bytes.now ≡ Ok plant.shape))
            (λ refusal. plant_form bytes.now ≡ Err refusal) }
    {
        let shape = plant_form(bytes)?;
        Ok(PlantFile { bytes, shape })
    }

    // Grams a minute of a product.
    pub fn rate(self, product: usize) -> u64
        requires { product < self.shape.products }
        ensures { let p = plant_in self.entry in (result ≡ p.line.rate product) × (1 ≤ result) × (result ≤ most_rate) }
    {
        cell_in(self.bytes, RATE, 4, product)
    }

    // Changeover minutes, by arc: the product before times the count of products, plus the product after.
    pub fn changeover_minutes(self, arc: usize) -> u64
        requires { arc < self.shape.products * self.shape.products }
        ensures { let p = plant_in self.entry in
            (result ≡ p.line.changeover_minutes (arc / p.products) (arc % p.products)) × (result ≤ most_changeover_minutes) }
    {
        cell_in(self.bytes, CHANGEOVER_MINUTES, 2, arc)
    }

    // Changeover cents, by arc.
    pub fn changeover_cents(self, arc: usize) -> u64
        requires { arc < self.shape.products * self.shape.products }
        ensures { let p = plant_in self.entry in
            (result ≡ p.line.changeover_cents (arc / p.products) (arc % p.products)) × (result ≤ most_changeover_cents) }
    {
        cell_in(self.bytes, CHANGEOVER_CENTS, 4, arc)
    }

    // The product that is mounted before the first week, or `NOTHING_MOUNTED`: the number that section 12 has, as the plant's definition has it.
    pub fn mounted(self) -> u64
        ensures { let p = plant_in self.entry in (result ≡ p.line.mounted) × ((result < p.products) ⊎ (result ≡ nothing_mounted)) }
    {
        LaidFile {
            bytes: self.bytes,
            shape: self.shape,
        }
        .opening_byte(0, NOTHING_MOUNTED)
    }

    // 1 if the week before the first was shut, else 0: the number that section 12 has.
    pub fn shut_before(self) -> u64
        ensures { let p = plant_in self.entry in (result ≡ p.line.shut_before) × (result ≤ 1) }
    {
        LaidFile {
            bytes: self.bytes,
            shape: self.shape,
        }
        .opening_byte(1, 0)
    }

    // Cents a kilogram and week that inventory costs.
    pub fn inventory_cost(self, product: usize) -> u64
        requires { product < self.shape.products }
        ensures { let p = plant_in self.entry in (result ≡ p.inventory_cost product) × (result ≤ most_unit_cost) }
    {
        cell_in(self.bytes, INVENTORY_COST, 4, product)
    }

    // Grams in stock before the first week.
    pub fn opening_inventory(self, product: usize) -> u64
        requires { product < self.shape.products }
        ensures { let p = plant_in self.entry in (result ≡ p.opening_inventory product) × (result ≤ most_storage) }
    {
        cell_in(self.bytes, OPENING, 4, product)
    }

    // The least grams of a product that may stand in storage after a week.
    pub fn least_storage(self, product: usize) -> u64
        requires { product < self.shape.products }
        ensures { let p = plant_in self.entry in (result ≡ p.least_storage product) × (result ≤ most_storage) }
    {
        cell_in(self.bytes, STORAGE, 4, 2 * product)
    }

    // The greatest.
    pub fn greatest_storage(self, product: usize) -> u64
        requires { product < self.shape.products }
        ensures { let p = plant_in self.entry in (result ≡ p.greatest_storage product) × (result ≤ most_storage) }
    {
        cell_in(self.bytes, STORAGE, 4, 2 * product + 1)
    }

    // Minutes of the shortest run.
    pub fn shortest_run(self) -> u64
        ensures { let p = plant_in self.entry in (result ≡ p.shortest_run) × (1 ≤ result) × (result ≤ most_week_minutes) }
    {
        cell_in(self.bytes, TIME, 2, 0)
    }

    // Minutes per week.
    pub fn week_minutes(self) -> u64
        ensures { let p = plant_in self.entry in (result ≡ p.week_minutes) × (result ≤ most_week_minutes) }
    {
        cell_in(self.bytes, TIME, 2, 1)
    }

    // ---- The tables by customer and product, by pair: customer times the count of products, plus product.

    // Where a pair's demand stands, week by week.
    #[tactic(auto, using(crate::proofs::PlantAccess::demand_held))]
    pub fn demand_row(self, pair: usize) -> PairDemand<'a>
        requires { pair < self.shape.customers * self.shape.products }
        ensures { (result.file ≡ self.entry) × (result.pair ≡ pair) }
    {
        let row = pair_row(self.bytes, self.shape, DEMAND, pair);
        PairDemand {
            file: self,
            pair,
            at: row.at,
        }
    }

    // Section 5: grams that a pair's customer wants of its product in a week.
    pub fn pair_demand(self, pair: usize, week: usize) -> u64
        requires { (pair < self.shape.customers * self.shape.products) × (week < self.shape.weeks) }
        ensures { let p = plant_in self.entry in (result ≡ p.demand (pair / p.products) (pair % p.products) week) × (result ≤ most_demand) }
    {
        self.demand_row(pair).demand(week)
    }

    // Cents a kilogram that a pair's customer pays for its product.
    pub fn pair_price(self, pair: usize) -> u64
        requires { pair < self.shape.customers * self.shape.products }
        ensures { let p = plant_in self.entry in (result ≡ p.price (pair / p.products) (pair % p.products)) × (result ≤ most_unit_cost) }
    {
        cell_in(self.bytes, PRICE, 4, pair)
    }

    // Cents a kilogram and week that a pair's backlog costs.
    pub fn pair_backlog_cost(self, pair: usize) -> u64
        requires { pair < self.shape.customers * self.shape.products }
        ensures { let p = plant_in self.entry in
            (result ≡ p.backlog_cost (pair / p.products) (pair % p.products)) × (result ≤ most_unit_cost) }
    {
        cell_in(self.bytes, BACKLOG_COST, 4, pair)
    }

    // Grams of a pair's product that its customer is owed before the first week.
    pub fn pair_opening_backlog(self, pair: usize) -> u64
        requires { pair < self.shape.customers * self.shape.products }
        ensures { let p = plant_in self.entry in
            (result ≡ p.opening_backlog (pair / p.products) (pair % p.products)) × (result ≤ most_opening_backlog) }
    {
        cell_in(
            self.bytes,
            OPENING,
            4,
            usize::from(self.shape.products) + pair,
        )
    }

    // Stores the body in a place as a plant file has it.
    pub fn copy_body(self, out: &mut [u8], place: usize)
        requires { (place < (plant_kind self.shape.kind).sections) × (get_or (plant_lengths self.shape) place 0 ≤ length out.old) }
        ensures { let p = plant_in self.entry in out.new ≡ store out.old 0 (get_or (plant_bodies p) place []) }
    {
        let e = entry_in(self.bytes, place);
        copy_section(out, self.bytes, place, 1, e.length);
    }
}

impl PairDemand<'_> {
    ghost use Rattle.plant_file.specs.Accepted.{plant_in};

    // Section 5: grams that the pair's customer wants of its product in a week.
    pub fn demand(self, week: usize) -> u64
        requires { week < self.file.shape.weeks }
        ensures { let p = plant_in self.entry.file in
            (result ≡ p.demand (self.entry.pair / p.products) (self.entry.pair % p.products) week) × (result ≤ most_demand) }
    {
        let row = PairRow {
            section: DEMAND,
            pair: self.pair,
            at: self.at,
        };
        pair_number(self.file.bytes, self.file.shape, row, week)
    }
}
