// Plan writing: the plan file of a run without a stop, body by body in file order. The line's tables start as 0 and each slot stores its
// number; inventory and backlog follow their balances.
#![tactic(auto)]

ghost use Rattle.std.specs.Prelude.{◌≡◌, ℕ, ◌+◌, ◌*◌, ◌-◌, ◌≤◌, ◌<◌, length, get_or};
ghost use Rattle.numbers.specs.Number.{encode, store};
ghost use Rattle.sections.specs.Limits.{most_storage};
ghost use Rattle.plant_file.specs.Plant.{plant_of};
ghost use Rattle.plant_file.specs.Accepted.{plant_in};
ghost use Rattle.slot_file.specs.Slots.{slots_of, order_of_slots};
ghost use Rattle.slot_file.specs.Accepted.{slots_in_week};
ghost use Rattle.costs.specs.Mounted.{mounted_below};
ghost use Rattle.model.specs.RunTables.{last_of, run_tables};
ghost use Rattle.calls.specs.Answer.{plan_answer, written_in, output_after};
ghost use Rattle.plan_writing.specs.Ran.{Ran, Cleared};
ghost use Rattle.plan_writing.specs.Bodies.{section_of, Shows, made_in, sold_in};
ghost use Rattle.plan_writing.specs.Line.{from_of, marked_from, marked_to, stride_in, mark_row, factor_in, amount_row};

use calls::FileWriter;
use contents::BodyLengths;
use costs::opening_mounted;
use machine::{RunInput, opening_state};
use numbers::{unsigned, write};
use plan_file::{layout, plan_length};
use plant_file::PlantFile;
use sections::{Refusal, Shape, area};
use slot_file::{SlotFile, WeekRow};
use units::{Minutes, Profit, Rate, produced};

// ---- A week's row of E, F, L, Z, ZF or O: the slots from one on up to another store a number in a cell each. A table is named by the place of
// its section, as the loop over the tables counts it.

// The first slot that stores something, of `total`.
#[tactic(auto, unfolding(crate::specs::Line::marked_from))]
fn marked_from(total: usize, place: usize) -> usize
    requires { 1 ≤ total }
    ensures { result ≡ marked_from total place }
{
    match place {
        plan_file::LAST_MADE => total - 1,
        plan_file::CHANGEOVER => 1,
        _ => 0,
    }
}

// The slot after the last of these.
#[tactic(auto, unfolding(crate::specs::Line::marked_to))]
fn marked_to(mounted: Option<u8>, total: usize, place: usize) -> usize
    ensures { result ≡ marked_to mounted total place }
{
    match place {
        plan_file::FIRST_MADE => 1,
        plan_file::WEEK_CHANGEOVER => usize::from(mounted.is_some()),
        _ => total,
    }
}

// How far apart the rows of a week's table are: Z and ZF have one for each product that they lead from.
#[tactic(auto, unfolding(crate::specs::Line::stride_in))]
fn stride_of(f: Shape, place: usize) -> usize
    ensures { (result ≡ stride_in f.products place) × (result ≤ 255) }
{
    match place {
        plan_file::CHANGEOVER | plan_file::WEEK_CHANGEOVER => usize::from(f.products),
        _ => 0,
    }
}

// ---- A week's row of T or P: each slot stores an amount in its product's cell.

// What a run of a product stores: its minutes, or the grams that it makes.
fn amount_of(plant: PlantFile, place: usize, product: usize, minutes: u64) -> u64
    requires { (product < plant.shape.products) × (minutes < 65536) }
    ensures { result ≡ factor_in (plant_in plant.entry).line.rate place product * minutes }
{
    match place {
        plan_file::MINUTES => minutes,
        _ => produced(Rate(plant.rate(product)), Minutes(minutes)).0,
    }
}

// ---- A week's row of V.

// Takes a week's sales from the number of each product, and stores what is left, the week's row of V.
fn write_inventory_row(out: &mut [u8], row: &mut [u64], slots: SlotFile, week: usize)
    requires { (week < slots.shape.weeks) × (slots.shape.products ≤ length row.old) × (4 * slots.shape.products ≤ length out.old)
        × ((i : ℕ) → i < slots.shape.products → sold_in slots.shape slots.bytes.now week i ≤ get_or row.old i 0) }
    ensures stored { let f = slots.entry.shape in out.new ≡ store out.old 0
        (encode 4 f.products (λ i. get_or row.old i 0 - sold_in f slots.entry.bytes.now week i)) }
    ensures left { let f = slots.entry.shape in
        Shows f.products (λ i. get_or row.old i 0 - sold_in f slots.entry.bytes.now week i) row.new }
{
    for i in 0..usize::from(slots.shape.products) {
        let left = row[i] - slots.sold(week, i);
        row[i] = left;
        write(out, 4 * i, 4, left);
    }
}

// ---- The bodies and the file.

// A plant file and a slot file for it whose run never stops, and the profit of that run. The files stand by themselves, and not as a `RunInput`,
// since every writer names them.
#[derive(Clone, Copy)]
struct RanFiles<'a> {
    plant: PlantFile<'a>,
    slots: SlotFile<'a>,
    profit: Profit,
    ghost ran: { Ran slots.shape plant.bytes.now slots.bytes.now },
    ghost earned: { profit.0 ≡ (run_tables (plant_of slots.shape plant.bytes.now) (slots_of slots.shape slots.bytes.now)).profit },
}

// A week of such a run, and where its slots stand.
#[derive(Clone, Copy)]
struct RanWeek<'a> {
    files: RanFiles<'a>,
    row: WeekRow<'a>,
    ghost same: { row.file ≡ files.slots },
    ghost known: { row.week < files.slots.shape.weeks },
}

impl RanWeek<'_> {
    ghost use Rattle.model.specs.RunTables.{mounted_at};
    ghost use Rattle.plan_writing.specs.Bodies.{row_in};
    ghost use Rattle.plan_writing.specs.Files.{ran_plant, ran_slots, tables_in};

    // The product that the line comes from to slot k: what is mounted, or the slot before.
    fn from_product(self, mounted: Option<u8>, k: usize) -> usize
        requires { mounted_below self.row.file.shape.products mounted × (k ≤ self.row.count) × (1 ≤ self.row.count) }
        ensures { (result ≡ from_of mounted (order_of_slots (slots_in_week self.entry.row)) k)
            × (result < self.entry.row.file.shape.products) }
    {
        if k == 0 {
            return match mounted {
                None => 0,
                Some(p) => usize::from(p),
            };
        }
        self.row.product(k - 1)
    }

    // Stores its row of E, F, L, Z, ZF or O in bytes of 0. A shut week stores nothing.
    fn write_marks(self, out: &mut [u8], mounted: Option<u8>, place: usize)
        requires { mounted_below self.row.file.shape.products mounted × (place < 6)
            × Cleared (section_of self.row.file.shape place).columns out.old }
        ensures { let f = self.entry.row.file.shape in out.new ≡ store out.old 0
            (encode 1 (section_of f place).columns (mark_row f.products mounted (order_of_slots (slots_in_week self.entry.row)) place)) }
    {
        if self.row.count == 0 {
            return;
        }
        let stride = stride_of(self.row.file.shape, place);
        let rise = u64::from(place == plan_file::POSITION);
        let start = marked_from(self.row.count, place);
        let end = marked_to(mounted, self.row.count, place);
        let mut from = self.from_product(mounted, start);
        for k in start..end {
            let product = self.row.product(k);
            write(out, stride * from + product, 1, 1 + rise * (k as u64));
            from = product;
        }
    }

    // Stores its row of T or P, numbers of `width` bytes, in bytes of 0.
    fn write_amounts(self, out: &mut [u8], place: usize, width: usize)
        requires { (width ≤ 8) × Cleared (width * self.row.file.shape.products) out.old }
        ensures { out.new ≡ store out.old 0
            (encode width self.entry.row.file.shape.products
            (amount_row (plant_in self.entry.files.plant).line.rate place (slots_in_week self.entry.row))) }
    {
        for k in 0..self.row.count {
            let product = self.row.product(k);
            let amount = amount_of(self.files.plant, place, product, self.row.minutes(k));
            write(out, width * product, width, amount);
        }
    }

    // Stores its row of one of the line's tables, in bytes of 0.
    fn write_row(self, out: &mut [u8], mounted: Option<u8>, place: usize, width: usize)
        requires { (mounted ≡ mounted_at (ran_plant self.files) (ran_slots self.files) self.row.week) × (place < 8)
            × (width ≡ (section_of self.files.slots.shape place).width)
            × Cleared (width * (section_of self.files.slots.shape place).columns) out.old }
        ensures { let f = self.entry.files.slots.shape in out.new ≡ store out.old 0
            (encode width (section_of f place).columns (row_in f (tables_in self.entry.files) place self.entry.row.week)) }
    {
        match place {
            plan_file::MINUTES | plan_file::PRODUCTION => { self.write_amounts(out, place, width) }
            _ => self.write_marks(out, mounted, place),
        }
    }

    // What is mounted after it.
    #[tactic(auto, using(crate::proofs::Files::few_row))]
    fn mounted_after(self, mounted: Option<u8>) -> Option<u8>
        ensures { result ≡ last_of mounted (order_of_slots (slots_in_week self.entry.row)) }
    {
        if self.row.count == 0 {
            return mounted;
        }
        Some(self.row.product(self.row.count - 1) as u8)
    }

    // Adds what each of its slots makes to the inventory of its product.
    fn add_production(self, inventory: &mut [u64])
        requires { (self.row.file.shape.products ≤ length inventory.old)
            × ((i : ℕ) → i < self.row.file.shape.products → get_or inventory.old i 0 ≤ most_storage) }
        ensures { let f = self.entry.row.file.shape in
            Shows f.products (λ i. get_or inventory.old i 0
            + made_in f self.entry.files.plant.bytes.now self.entry.row.file.bytes.now self.entry.row.week i) inventory.new }
    {
        for k in 0..self.row.count {
            let product = self.row.product(k);
            let grams = produced(
                Rate(self.files.plant.rate(product)),
                Minutes(self.row.minutes(k)),
            );
            inventory[product] += grams.0;
        }
    }
}

impl RanFiles<'_> {
    ghost use Rattle.std.specs.Prelude.{[], ◌/◌, ◌%◌};
    ghost use Rattle.plan_file.specs.Form.{plan_lengths};
    ghost use Rattle.plan_file.specs.File.{plan_bodies};
    ghost use Rattle.plan_writing.specs.Files.{tables_in};

    // Stores one of the line's tables: E, F, L, Z, ZF, O, T or P.
    fn write_line(self, out: &mut [u8], place: usize)
        requires { (place < 8) × (get_or (plan_lengths self.slots.shape) place 0 ≤ length out.old) }
        ensures { out.new ≡ store out.old 0 (get_or (plan_bodies self.entry.slots.shape (tables_in self.entry)) place []) }
    {
        let f = self.slots.shape;
        let weeks = usize::from(f.weeks);
        let x = layout(f, place);
        let size = x.width * x.columns;
        out[..size * weeks].fill(0);
        let mut row = self.slots.first_row();
        let mut mounted = opening_mounted(self.plant);
        for week in 0..weeks {
            let ran = RanWeek { files: self, row };
            ran.write_row(&mut out[size * week..], mounted, place, x.width);
            mounted = ran.mounted_after(mounted);
            row = row.next();
        }
    }

    // Stores a customer's and product's row of Δ, from the opening on.
    fn write_backlog_row(self, out: &mut [u8], pair: usize)
        requires { (pair < self.slots.shape.customers * self.slots.shape.products) × (4 * self.slots.shape.weeks ≤ length out.old) }
        ensures { let f = self.entry.slots.shape in out.new ≡ store out.old 0
            (encode 4 f.weeks ((tables_in self.entry).backlog (pair / f.products) (pair % f.products))) }
    {
        let demand = self.plant.demand_row(pair);
        let sales = self.slots.sales_row(pair);
        let mut backlog = self.plant.pair_opening_backlog(pair);
        for week in 0..usize::from(self.slots.shape.weeks) {
            let due = backlog + demand.demand(week);
            backlog = due - sales.sales(week);
            write(out, 4 * week, 4, backlog);
        }
    }

    // Stores Δ, pair by pair.
    fn write_backlog(self, out: &mut [u8])
        requires { get_or (plan_lengths self.slots.shape) 10 0 ≤ length out.old }
        ensures { out.new ≡ store out.old 0 (get_or (plan_bodies self.entry.slots.shape (tables_in self.entry)) 10 []) }
    {
        let f = self.slots.shape;
        let size = 4 * usize::from(f.weeks);
        for pair in 0..area(f.customers, f.products) {
            self.write_backlog_row(&mut out[size * pair..], pair);
        }
    }

    // Stores V, week by week.
    fn write_inventory(self, out: &mut [u8])
        requires { get_or (plan_lengths self.slots.shape) 9 0 ≤ length out.old }
        ensures { out.new ≡ store out.old 0 (get_or (plan_bodies self.entry.slots.shape (tables_in self.entry)) 9 []) }
    {
        let f = self.slots.shape;
        let size = 4 * usize::from(f.products);
        let mut inventory = opening_state(self.plant).inventory;
        let mut row = self.slots.first_row();
        for week in 0..usize::from(f.weeks) {
            RanWeek { files: self, row }.add_production(&mut inventory);
            write_inventory_row(&mut out[size * week..], &mut inventory, self.slots, week);
            row = row.next();
        }
    }
}

impl FileWriter for RanFiles<'_> {
    ghost use Rattle.sections.specs.Layout.{plan_kind};
    ghost use Rattle.plan_file.specs.File.{plan_bodies};
    ghost use Rattle.plan_writing.specs.Files.{tables_in};

    ghost kind = { plan_kind };

    ghost bodies = { λ x. plan_bodies x.slots.shape (tables_in x) };

    #[tactic(auto, using(plan_file::proofs::FileIsPlan::bodies_lengths))]
    fn body_lengths(self) -> BodyLengths {
        plan_file::body_lengths(self.slots.shape)
    }

    #[tactic(auto, using(plan_file::proofs::FileIsPlan::file_length), unfolding(plan_file::specs::File::plan_file))]
    fn file_length(self) -> usize {
        plan_length(self.slots.shape)
    }

    #[tactic(auto, using(crate::proofs::Bodies::bodies_count, crate::proofs::Bodies::body_size))]
    fn write_body(self, out: &mut [u8], place: usize) {
        match place {
            plan_file::SALES => self.slots.write_sales(out),
            plan_file::INVENTORY => self.write_inventory(out),
            plan_file::BACKLOG => self.write_backlog(out),
            plan_file::PROFIT => write(out, 0, 8, unsigned(self.profit.0)),
            _ => self.write_line(out, place),
        }
    }
}

// The plan file of a slot file's run at the start of the output: its length, or the number of the first refusal.
pub fn plan_writing(plant: &[u8], slots: &[u8], out: &mut [u8]) -> Result<usize, Refusal>
    ensures result { result ≡ written_in (plan_answer plant.now slots.now) out.old }
    ensures output { out.new ≡ output_after (plan_answer plant.now slots.now) out.old }
{
    let plant = PlantFile::read(plant)?;
    let slots = SlotFile::read(slots, plant.shape)?;
    let state = RunInput { plant, slots }.run()?;
    RanFiles {
        plant,
        slots,
        profit: state.profit,
    }
    .write_where_room(out)
}
