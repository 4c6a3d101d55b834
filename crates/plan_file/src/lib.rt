// Plan files, kind 2: the rows of refusal, the tables by name, and the lengths of the bodies.
#![tactic(auto)]

ghost use Rattle.std.specs.Prelude.{◌≡◌, ◌≤◌, ◌<◌, ◌^◌, length, get_or};
ghost use Rattle.contents.specs.Contents.{sized};
ghost use Rattle.contents.specs.File.{start};
ghost use Rattle.sections.specs.Section.{Laid};
ghost use Rattle.plan_file.specs.Tables.{product_place, product_width, changeover_place, pair_place};
ghost use Rattle.sections.specs.Layout.{plan_kind, contents_length, layout, LengthsOf};
ghost use Rattle.plan_file.specs.Form.{plan_layout, plan_lengths, binary, plan_form};

mod file;

use contents::{BodyLengths, is_headed, is_placed};
pub use file::PlanFile;
use sections::{Layout, Refusal, Shape, area, in_range, volume};

// The file's kind: a number, as `contents` reads and writes it.
const KIND: u64 = 2;

const FIRST: u64 = 21;

pub const SECTIONS: usize = 12;

// The places of sections 21 to 32 in the contents. They are numbers: the loops here and in plan writing go from place to place, and an enum
// of the sections would be made of each place only to give it back.
pub const ASSIGNED: usize = ProductTable::Assigned as usize;

pub const FIRST_MADE: usize = ProductTable::First as usize;

pub const LAST_MADE: usize = ProductTable::Last as usize;

pub const CHANGEOVER: usize = ChangeoverTable::Within as usize;

pub const WEEK_CHANGEOVER: usize = ChangeoverTable::Between as usize;

pub const POSITION: usize = ProductTable::Position as usize;

pub const MINUTES: usize = ProductTable::Minutes as usize;

pub const PRODUCTION: usize = ProductTable::Production as usize;

pub const SALES: usize = PairTable::Sales as usize;

pub const INVENTORY: usize = ProductTable::Inventory as usize;

pub const BACKLOG: usize = PairTable::Backlog as usize;

pub const PROFIT: usize = 11;

// Rows of as many columns, and so many bytes for each number.
fn table(width: usize, rows: usize, columns: usize) -> Layout
    ensures { result ≡ layout width rows columns }
{
    Layout {
        width,
        rows,
        columns,
    }
}

// How the section in a place is laid out.
pub fn layout(f: Shape, place: usize) -> Layout
    requires { place < plan_kind.sections }
    ensures { (result ≡ get_or (plan_layout f) place (layout 0 0 0)) × (result.width ≤ 8) × (result.rows ≤ 65025) × (result.columns ≤ 65025) }
{
    let weeks = usize::from(f.weeks);
    let products = usize::from(f.products);
    match place {
        CHANGEOVER | WEEK_CHANGEOVER => table(1, weeks, area(f.products, f.products)),
        MINUTES => table(2, weeks, products),
        PRODUCTION | INVENTORY => table(4, weeks, products),
        SALES | BACKLOG => table(4, area(f.customers, f.products), weeks),
        PROFIT => table(8, 1, 1),
        _ => table(1, weeks, products),
    }
}

// The length of each body, by the layouts of plan files.
fn lengths_of(f: Shape) -> [usize; 12]
    ensures { result ≡ plan_lengths f }
{
    let mut lengths = [0; 12];
    for place in 0..SECTIONS {
        let x = layout(f, place);
        lengths[place] = x.width * (x.rows * x.columns);
    }
    lengths
}

// The lengths of the bodies of a plan file, of which each kind of file has its own.
pub fn body_lengths(f: Shape) -> BodyLengths
    ensures { LengthsOf plan_kind (plan_lengths f) result }
{
    BodyLengths {
        kind: KIND,
        first: FIRST,
        sections: SECTIONS,
        lengths: lengths_of(f),
    }
}

// The length of a plan file.
pub fn plan_length(f: Shape) -> usize
    ensures { (result ≡ start (plan_lengths f) plan_kind.sections) × (result < 2 ^ 32) }
{
    body_lengths(f).file_length()
}

// Row 13.
fn has_lengths(s: &[u8], f: Shape) -> bool
    requires { contents_length plan_kind ≤ length s.now }
    ensures { result ≡ sized s.now (plan_lengths f) }
{
    body_lengths(f).is_sized(s)
}

// Row 14.
#[tactic(auto, unfolding(crate::specs::Form::binary))]
fn is_binary(s: &[u8], f: Shape) -> bool
    requires { Laid s.now (plan_lengths f) }
    ensures { result ≡ binary s.now f }
{
    let products = area(f.weeks, f.products);
    let arcs = volume(f.weeks, f.products, f.products);
    let assigned = in_range(s, ASSIGNED, 1, 0, products, 0, 1);
    let first = in_range(s, FIRST_MADE, 1, 0, products, 0, 1);
    let last = in_range(s, LAST_MADE, 1, 0, products, 0, 1);
    let within = in_range(s, CHANGEOVER, 1, 0, arcs, 0, 1);
    let between = in_range(s, WEEK_CHANGEOVER, 1, 0, arcs, 0, 1);
    assigned && first && last && within && between
}

// Rows 11 to 14, with refusals and a last row of their own: good, or the number of the first row that turns the plan down.
#[tactic(auto, unfolding(crate::specs::Form::plan_form))]
pub fn plan_form(s: &[u8], f: Shape) -> Result<Shape, Refusal>
    ensures { result ≡ plan_form f s.now }
{
    if !is_headed(s, KIND, FIRST, SECTIONS) {
        return Err(Refusal::PlanContents);
    }
    if !is_placed(s, SECTIONS) {
        return Err(Refusal::PlanPlaces);
    }
    if !has_lengths(s, f) {
        return Err(Refusal::PlanLengths);
    }
    if !is_binary(s, f) {
        return Err(Refusal::PlanMarks);
    }
    Ok(f)
}

// ---- tables by their names

// The tables by week and product, each the place of its section: E, F, L, O, T, P and V.
#[derive(Clone, Copy, Debug, PartialEq, Eq)]
pub enum ProductTable {
    Assigned = 0,
    First = 1,
    Last = 2,
    Position = 5,
    Minutes = 6,
    Production = 7,
    Inventory = 9,
}

impl ProductTable {
    // The place of its section.
    fn place(self) -> usize
        ensures { result ≡ product_place self }
    {
        self as usize
    }

    // How many bytes each number has.
    fn width(self) -> usize
        ensures { result ≡ product_width self }
    {
        match self {
            ProductTable::Minutes => 2,
            ProductTable::Production | ProductTable::Inventory => 4,
            _ => 1,
        }
    }
}

// The tables of changeovers, each the place of its section: Z, within the week, and ZF, from an earlier week.
#[derive(Clone, Copy, Debug, PartialEq, Eq)]
pub enum ChangeoverTable {
    Within = 3,
    Between = 4,
}

impl ChangeoverTable {
    // The place of its section.
    fn place(self) -> usize
        ensures { result ≡ changeover_place self }
    {
        self as usize
    }
}

// The tables by customer, product and week, each the place of its section: S and Δ.
#[derive(Clone, Copy, Debug, PartialEq, Eq)]
pub enum PairTable {
    Sales = 8,
    Backlog = 10,
}

impl PairTable {
    // The place of its section.
    fn place(self) -> usize
        ensures { result ≡ pair_place self }
    {
        self as usize
    }
}

// A week's sums of a table of changeovers, for at most 16 products: into each and out of it. Arrays of the most products: there is no heap.
#[derive(Clone, Copy, Debug, PartialEq, Eq)]
pub struct ArcSums {
    pub into: [u8; 16],
    pub out: [u8; 16],
}
