// Slot files, kind 3: the rows of refusal, the numbers of each section, and the writing of one.
#![tactic(auto)]

ghost use Rattle.std.specs.Prelude.{◌≡◌, true, ◌++◌, ◌+◌, ◌*◌, ◌/◌, ◌%◌, ◌≤◌, ◌<◌, ◌^◌, ltb, length, get_or, take, Ok, MatchResult};
ghost use Rattle.mathematics.specs.Below.{sum_below, all_below, list_below};
ghost use Rattle.numbers.specs.Number.{Bytes, digits, store};
ghost use Rattle.contents.specs.Contents.{offset, placed, sized};
ghost use Rattle.contents.specs.File.{start};
ghost use Rattle.sections.specs.Section.{Holds, Laid, cube};
ghost use Rattle.sections.specs.Layout.{slot_kind, contents_length, LengthsOf};
ghost use Rattle.slot_file.specs.Slots.{no_slot, slot_count, slot_at, slots_before};
ghost use Rattle.slot_file.specs.Row.{slots_in};
ghost use Rattle.slot_file.specs.Form.{slot_lengths, slots_in_range, slot_form};

use contents::{BodyLengths, cell_in, entry_in, is_headed, is_placed};
use numbers::{read, write};
use sections::{
    PairRow, Refusal, Shape, copy_section, customer_sum, in_range, pair_number, pair_row, volume,
};
use units::Minutes;

// The file's kind: a number, as `contents` reads and writes it.
const KIND: u64 = 3;

const FIRST: u64 = 41;

const SECTIONS: usize = 3;

// The places of sections 41 to 43 in the contents: numbers and no enum, since `contents` and `sections` take a place as a number.
pub const COUNTS: usize = 0;

pub const SLOTS: usize = 1;

pub const SALES: usize = 2;

// The bytes of a slot.
pub const SLOT_BYTES: usize = 3;

// A production run: a product and its minutes.
#[derive(Clone, Copy)]
pub struct Slot {
    pub product: usize,
    pub minutes: Minutes,
}

// The slots of a week in running order: the first `count` of an array. A `Vec` would need a heap, which this crate does without.
#[derive(Clone, Copy)]
pub struct WeekSlots {
    pub slots: [Slot; 16],
    pub count: usize,
    pub ghost few: { count ≤ 16 },
}

impl WeekSlots {
    // The slots alone.
    pub fn as_slice(&self) -> &[Slot]
        ensures { result.now ≡ take self.now.count self.now.slots }
    {
        &self.slots[..self.count]
    }
}

// The bytes of a slot file that rows 21 to 24 accept for a plant of a shape. That each is below 256 is said too, since the type of a slice in a
// struct does not say it to proofs.
#[derive(Clone, Copy)]
pub struct SlotFile<'a> {
    pub bytes: &'a [u8],
    pub shape: Shape,
    pub ghost accepted: { slot_form shape bytes.now ≡ Ok shape },
    pub ghost octets: { Bytes bytes.now },
}

// Where the slots of a week of a file stand: `count` of them, from slot `first` of all on. After the last week there are none.
#[derive(Clone, Copy)]
pub struct WeekRow<'a> {
    pub file: SlotFile<'a>,
    pub week: usize,
    pub first: usize,
    pub count: usize,
    pub ghost known: { week ≤ file.shape.weeks },
    pub ghost begins: { first ≡ slots_before file.bytes.now week },
    pub ghost counted: { week < file.shape.weeks → count ≡ slot_count file.bytes.now week },
}

// Where a pair's sales stand in a file, week by week.
#[derive(Clone, Copy)]
pub struct PairSales<'a> {
    pub file: SlotFile<'a>,
    pub pair: usize,
    pub at: usize,
    pub ghost known: { pair < file.shape.customers * file.shape.products },
    pub ghost begins: { at ≡ offset file.bytes.now 2 + 4 * (pair * file.shape.weeks) },
}

// The lengths of the bodies of a slot file with `total` slots, of which each kind of file has its own.
pub fn body_lengths(f: Shape, total: usize) -> BodyLengths
    requires { total ≤ 65025 }
    ensures { LengthsOf slot_kind (slot_lengths f total) result }
{
    let sales = volume(f.customers, f.products, f.weeks);
    let weeks = usize::from(f.weeks);
    BodyLengths {
        kind: KIND,
        first: FIRST,
        sections: SECTIONS,
        lengths: [weeks, 3 * total, 4 * sales, 0, 0, 0, 0, 0, 0, 0, 0, 0],
    }
}

// The length of a slot file with `total` slots.
pub fn slot_length(f: Shape, total: usize) -> usize
    requires { total ≤ 65025 }
    ensures { (result ≡ start (slot_lengths f total) slot_kind.sections) × (result < 2 ^ 32) }
{
    body_lengths(f, total).file_length()
}

// The slots before week w.
#[tactic(auto, unfolding(crate::specs::Slots::slots_before, crate::specs::Slots::slot_count, contents::specs::Contents::cell))]
fn slots_before(s: &[u8], w: usize) -> usize
    requires { Holds s.now 0 1 w × (w < 256) }
    ensures { (result ≡ slots_before s.now w) × (result ≤ 65025) }
{
    let e = entry_in(s, COUNTS);
    let mut sum = 0;
    for i in 0..w {
        sum += usize::from(s[e.offset + i]);
    }
    sum
}

// Row 23. Section 41's length comes first: only then do its bytes surely lie within the file.
#[tactic(auto, using(crate::proofs::SlotPlaces::week_bytes))]
fn has_lengths(s: &[u8], f: Shape) -> bool
    requires { (contents_length slot_kind ≤ length s.now) × (placed s.now slot_kind.sections ≡ true) }
    ensures { result ≡ sized s.now (slot_lengths f (slots_before s.now f.weeks)) }
{
    let e = entry_in(s, COUNTS);
    if e.length != usize::from(f.weeks) {
        return false;
    }
    body_lengths(f, slots_before(s, usize::from(f.weeks))).is_sized(s)
}

// Where slot j begins.
fn slot_place(s: &[u8], j: usize) -> usize
    requires { (contents_length slot_kind ≤ length s.now) × (offset s.now 1 + 3 * j + 3 ≤ length s.now) }
    ensures { (result ≡ offset s.now 1 + 3 * j) × (result + 3 ≤ length s.now) }
{
    let e = entry_in(s, SLOTS);
    e.offset + SLOT_BYTES * j
}

// Whether each slot's product is below n. All are tried: a loop that ends early is not compiled to tests of several slots at a time.
fn has_products(s: &[u8], total: usize, n: u64) -> bool
    requires { (contents_length slot_kind ≤ length s.now) × (offset s.now 1 + 3 * total ≤ length s.now) }
    ensures { result ≡ all_below total (λ j. ltb (slot_at s.now j).product n) }
{
    let mut known = true;
    for j in 0..total {
        known &= u64::from(s[slot_place(s, j)]) < n;
    }
    known
}

// Row 24.
#[tactic(auto, unfolding(crate::specs::Form::slots_in_range))]
fn is_in_range(s: &[u8], f: Shape) -> bool
    requires { Laid s.now (slot_lengths f (slots_before s.now f.weeks)) }
    ensures { result ≡ slots_in_range s.now f }
{
    let weeks = usize::from(f.weeks);
    let total = slots_before(s, weeks);
    let n = u64::from(f.products);
    in_range(s, COUNTS, 1, 0, weeks, 0, n) && has_products(s, total, n)
}

// Rows 21 to 24, with refusals and a last row of their own: good for a plant of shape f, or the number of the first row that turns the file down.
#[tactic(auto, using(contents::proofs::Facts::headed_facts), unfolding(crate::specs::Form::slot_form))]
pub fn slot_form(s: &[u8], f: Shape) -> Result<Shape, Refusal>
    ensures { result ≡ slot_form f s.now }
{
    if !is_headed(s, KIND, FIRST, SECTIONS) {
        return Err(Refusal::SlotContents);
    }
    if !is_placed(s, SECTIONS) {
        return Err(Refusal::SlotPlaces);
    }
    if !has_lengths(s, f) {
        return Err(Refusal::SlotLengths);
    }
    if !is_in_range(s, f) {
        return Err(Refusal::SlotRanges);
    }
    Ok(f)
}

impl<'a> SlotFile<'a> {
    ghost use Rattle.slot_file.specs.Accepted.{slots_in_file};

    // By rows of its own: the file of these bytes, or the number of the first row that turns it down.
    pub fn read(bytes: &'a [u8], shape: Shape) -> Result<SlotFile<'a>, Refusal>
        ensures { MatchResult result (λ file. (file.bytes ≡ bytes.entry) × (file.shape ≡ shape) × (slot_form shape bytes.now ≡ Ok shape))
            (λ refusal. slot_form shape bytes.now ≡ Err refusal) }
    {
        slot_form(bytes, shape)?;
        Ok(SlotFile { bytes, shape })
    }

    // Section 41: the slots of a week.
    pub fn slot_count(self, week: usize) -> usize
        requires { week < self.shape.weeks }
        ensures { (result ≡ slot_count self.entry.bytes.now week) × (result ≤ self.entry.shape.products) }
    {
        cell_in(self.bytes, COUNTS, 1, week) as usize
    }

    // How many slots the file has before a week; before the week after the last, all.
    #[tactic(auto, using(crate::proofs::AcceptedFile::counts_before))]
    pub fn week_start(self, week: usize) -> usize
        requires { week ≤ self.shape.weeks }
        ensures { (result ≡ slots_before self.entry.bytes.now week) × (result ≤ 65025) }
    {
        slots_before(self.bytes, week)
    }

    // Section 42: the product of slot j of all.
    pub fn slot_product(self, j: usize) -> usize
        requires { j < slots_before self.bytes.now self.shape.weeks }
        ensures { (result ≡ (slot_at self.entry.bytes.now j).product) × (result < self.entry.shape.products) }
    {
        let at = slot_place(self.bytes, j);
        usize::from(self.bytes[at])
    }

    // Section 42: the minutes of slot j of all.
    pub fn slot_minutes(self, j: usize) -> u64
        requires { j < slots_before self.bytes.now self.shape.weeks }
        ensures { (result ≡ (slot_at self.entry.bytes.now j).minutes) × (result < 2 ^ 16) }
    {
        let at = slot_place(self.bytes, j);
        read(self.bytes, at + 1, 2)
    }

    // The slots of a week that begin at slot `first` of all.
    fn row_at(self, week: usize, first: usize) -> WeekRow<'a>
        requires { (week ≤ self.shape.weeks) × (first ≡ slots_before self.bytes.now week) }
        ensures { (result.file ≡ self.entry) × (result.week ≡ week) }
    {
        if week == usize::from(self.shape.weeks) {
            return WeekRow {
                file: self,
                week,
                first,
                count: 0,
            };
        }
        let count = self.slot_count(week);
        WeekRow {
            file: self,
            week,
            first,
            count,
        }
    }

    // The slots of the first week.
    #[tactic(auto, unfolding(crate::specs::Slots::slots_before))]
    pub fn first_row(self) -> WeekRow<'a>
        ensures { (result.file ≡ self.entry) × (result.week ≡ 0) }
    {
        self.row_at(0, 0)
    }

    // Slots of the file at the start of an array: `count` of them, from slot `first` of all on.
    fn slot_row(self, first: usize, count: usize) -> [Slot; 16]
        requires { (first + count ≤ slots_before self.bytes.now self.shape.weeks) × (count ≤ 16) }
        ensures { slots_in (take count result) ≡ list_below count (λ k. slot_at self.entry.bytes.now (first + k)) }
    {
        let mut row = [Slot {
            product: 0,
            minutes: Minutes(0),
        }; 16];
        for k in 0..count {
            let j = first + k;
            let product = self.slot_product(j);
            let minutes = Minutes(self.slot_minutes(j));
            row[k] = Slot { product, minutes };
        }
        row
    }

    // Sections 41 and 42: the slots of a week, of at most 16 products.
    pub fn week_slots(self, week: usize) -> WeekSlots
        requires { (week < self.shape.weeks) × (self.shape.products ≤ 16) }
        ensures { slots_in (take result.count result.slots) ≡ (slots_in_file self.entry).line.week week }
    {
        let count = self.slot_count(week);
        let first = self.week_start(week);
        let slots = self.slot_row(first, count);
        WeekSlots { slots, count }
    }

    // Where a pair's sales stand, week by week.
    #[tactic(auto, using(crate::proofs::AcceptedFile::sales))]
    pub fn sales_row(self, pair: usize) -> PairSales<'a>
        requires { pair < self.shape.customers * self.shape.products }
        ensures { (result.file ≡ self.entry) × (result.pair ≡ pair) }
    {
        let row = pair_row(self.bytes, self.shape, SALES, pair);
        PairSales {
            file: self,
            pair,
            at: row.at,
        }
    }

    // Section 43: a week's sales of a pair: customer times the count of products, plus product.
    pub fn pair_sales(self, pair: usize, week: usize) -> u64
        requires { (pair < self.shape.customers * self.shape.products) × (week < self.shape.weeks) }
        ensures { (result ≡ (slots_in_file self.entry).sales
            (pair / self.entry.shape.products) (pair % self.entry.shape.products) week) × (result < 2 ^ 32) }
    {
        self.sales_row(pair).sales(week)
    }

    // The grams of a product sold in a week, over all customers.
    #[tactic(auto, using(crate::proofs::AcceptedFile::sales), unfolding(crate::specs::Slots::slots_of))]
    pub fn sold(self, week: usize, product: usize) -> u64
        requires { (week < self.shape.weeks) × (product < self.shape.products) }
        ensures { (result ≡ sum_below self.entry.shape.customers
            (λ c. (slots_in_file self.entry).sales c product week)) × (result < 2 ^ 40) }
    {
        customer_sum(self.bytes, self.shape, SALES, product, week)
    }

    // Stores section 43's bytes at the start of what is lent.
    #[tactic(auto, using(crate::proofs::AcceptedFile::sales, crate::proofs::SlotReads::sales_cube))]
    pub fn write_sales(self, out: &mut [u8])
        requires { 4 * (self.shape.customers * self.shape.products * self.shape.weeks) ≤ length out.old }
        ensures { out.new ≡ store out.old 0 (cube 4 self.entry.shape.customers self.entry.shape.products self.entry.shape.weeks
            (slots_in_file self.entry).sales) }
    {
        let numbers = volume(self.shape.customers, self.shape.products, self.shape.weeks);
        copy_section(out, self.bytes, SALES, 4, numbers);
    }
}

impl<'a> WeekRow<'a> {
    ghost use Rattle.slot_file.specs.Accepted.{slots_in_week};

    // The slots of the week after.
    #[tactic(auto, using(crate::proofs::SlotRows::row_end, crate::proofs::SlotRows::row_end_held))]
    pub fn next(self) -> WeekRow<'a>
        requires { self.week < self.file.shape.weeks }
        ensures { (result.file ≡ self.entry.file) × (result.week ≡ self.entry.week + 1) }
    {
        self.file.row_at(self.week + 1, self.first + self.count)
    }

    // Which slot of all slot k is.
    fn slot_in(self, k: usize) -> usize
        requires { (self.week < self.file.shape.weeks) × (k < self.count) }
        ensures { (slot_at self.entry.file.bytes.now result ≡ get_or (slots_in_week self.entry) k no_slot)
            × (result < slots_before self.entry.file.bytes.now self.entry.file.shape.weeks) }
    {
        self.first + k
    }

    // The product of slot k.
    pub fn product(self, k: usize) -> usize
        requires { (self.week < self.file.shape.weeks) × (k < self.count) }
        ensures { (result ≡ (get_or (slots_in_week self.entry) k no_slot).product)
            × (result < self.entry.file.shape.products) }
    {
        self.file.slot_product(self.slot_in(k))
    }

    // The minutes of slot k.
    pub fn minutes(self, k: usize) -> u64
        requires { (self.week < self.file.shape.weeks) × (k < self.count) }
        ensures { (result ≡ (get_or (slots_in_week self.entry) k no_slot).minutes)
            × (result < 2 ^ 16) }
    {
        self.file.slot_minutes(self.slot_in(k))
    }
}

impl PairSales<'_> {
    ghost use Rattle.slot_file.specs.Accepted.{slots_in_file};

    // Section 43: a week's sales of the pair's product to its customer.
    pub fn sales(self, week: usize) -> u64
        requires { week < self.file.shape.weeks }
        ensures { (result ≡ (slots_in_file self.entry.file).sales
            (self.entry.pair / self.entry.file.shape.products) (self.entry.pair % self.entry.file.shape.products) week)
            × (result < 2 ^ 32) }
    {
        let row = PairRow {
            section: SALES,
            pair: self.pair,
            at: self.at,
        };
        pair_number(self.file.bytes, self.file.shape, row, week)
    }
}

// Stores a slot at the start of what is lent.
pub fn write_slot(out: &mut [u8], product: u64, minutes: u64)
    requires { 3 ≤ length out.old }
    ensures { out.new ≡ store out.old 0 (digits 1 product ++ digits 2 minutes) }
{
    write(out, 0, 1, product);
    write(out, 1, 2, minutes);
}
