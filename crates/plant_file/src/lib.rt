// Plant files, kinds 1 and 4: the rows of refusal, the lengths of the bodies, and the writing of sections; lists of rates.
#![tactic(auto)]

ghost use Rattle.std.specs.Prelude.{◌≡◌, ◌++◌, ◌+◌, ◌*◌, ◌^◌, ◌≤◌, ◌<◌, length, get_or};
ghost use Rattle.mathematics.specs.Below.{all_below, within};
ghost use Rattle.numbers.specs.Number.{digits, encode, store};
ghost use Rattle.contents.specs.Contents.{sized};
ghost use Rattle.contents.specs.File.{start};
ghost use Rattle.sections.specs.Section.{Holds};
ghost use Rattle.sections.specs.Limits.{most_rate};
ghost use Rattle.sections.specs.Layout.{LengthsOf};
ghost use Rattle.plant_file.specs.Kinds.{plant_kind, file_kind, has_mounted, contents_of};
ghost use Rattle.plant_file.specs.Rates.{listed_rate, rates_form};
ghost use Rattle.plant_file.specs.Form.{shape_of, plant_headed, laid_out, in_limits, all_lengths, plant_lengths, mounted_known, plant_form};

mod file;
mod laid;
mod rates;

use contents::{BodyLengths, entry_in, is_headed, is_placed};
pub use file::{PairDemand, PlantFile};
use laid::LaidFile;
use numbers::{read, write};
pub use rates::RateList;
use sections::{Refusal, Shape, area, volume};

const FIRST: u64 = 1;

// The places of sections 1 to 12 in the contents. They are numbers, as the contents take a place by its number and the writing counts them.
pub const SHAPE: usize = 0;

pub const RATE: usize = 1;

const CHANGEOVER_MINUTES: usize = 2;

const CHANGEOVER_CENTS: usize = 3;

pub const DEMAND: usize = 4;

const PRICE: usize = 5;

const BACKLOG_COST: usize = 6;

const INVENTORY_COST: usize = 7;

const STORAGE: usize = 8;

pub const OPENING: usize = 9;

const TIME: usize = 10;

pub const MOUNTED: usize = 11;

// The limits of rows 3 and 5.
const MOST_PRODUCTS: u64 = 16;

const MOST_CUSTOMERS: u64 = 8;

const MOST_WEEKS: u64 = 26;

const MOST_RATE: u64 = 100000;

const MOST_CHANGEOVER_MINUTES: u64 = 10080;

const MOST_CHANGEOVER_CENTS: u64 = 1000000;

const MOST_DEMAND: u64 = 100000000;

const MOST_UNIT_COST: u64 = 100000;

const MOST_STORAGE: u64 = 4000000000;

const MOST_KIND_ONE_BACKLOG: u64 = 100000000;

pub const MOST_OPENING_BACKLOG: u64 = 1600000000;

const MOST_WEEK_MINUTES: u64 = 10080;

// What section 12 has where no product is mounted.
pub const NOTHING_MOUNTED: u64 = 255;

// What a kind of plant file has: its number, how many sections from section 1 on, the most grams of opening backlog, and whether the
// diagonals of sections 3 and 4 may be filled.
#[derive(Clone, Copy, Debug, PartialEq, Eq)]
struct PlantKind {
    number: u64,
    sections: usize,
    backlog: u64,
    diagonals: bool,
}

// The table of kinds. The kind is a byte, as a shape may have any byte: one that is no kind's has what kind 1 has, and row 1 refuses it.
#[tactic(auto, unfolding(crate::specs::Kinds::plant_kind))]
fn plant_kind(kind: u8) -> PlantKind
    ensures { result ≡ plant_kind kind }
{
    match kind {
        4 => PlantKind {
            number: 4,
            sections: 12,
            backlog: MOST_OPENING_BACKLOG,
            diagonals: false,
        },
        _ => PlantKind {
            number: 1,
            sections: 11,
            backlog: MOST_KIND_ONE_BACKLOG,
            diagonals: false,
        },
    }
}

// The kind of a file, by its first byte.
fn kind_of(s: &[u8]) -> PlantKind
    ensures { result ≡ plant_kind (get_or s.now 0 0) }
{
    match s.first() {
        Some(kind) => plant_kind(*kind),
        None => plant_kind(0),
    }
}

// Whether the kind has section 12.
#[tactic(auto, unfolding(crate::specs::Kinds::has_mounted))]
fn has_mounted(f: Shape) -> bool
    ensures { result ≡ has_mounted f.kind }
{
    plant_kind(f.kind).sections == 12
}

// Row 1.
#[tactic(auto, using(crate::proofs::PlantKinds::kind_sections), unfolding(crate::specs::Form::plant_headed))]
fn is_plant_headed(s: &[u8]) -> bool
    ensures { result ≡ plant_headed s.now }
{
    let k = kind_of(s);
    is_headed(s, k.number, FIRST, k.sections)
}

// Row 2.
#[tactic(auto, using(crate::proofs::PlantKinds::kind_sections), unfolding(crate::specs::Form::laid_out))]
fn is_laid_out(s: &[u8]) -> bool
    requires { contents_of (get_or s.now 0 0) ≤ length s.now }
    ensures { result ≡ laid_out s.now }
{
    let k = kind_of(s);
    is_placed(s, k.sections) && entry_in(s, SHAPE).length == 3
}

// Section 1.
#[tactic(auto, using(crate::proofs::Cells::byte_cell), unfolding(crate::specs::Form::shape_of))]
fn shape_of(s: &[u8]) -> Shape
    requires { Holds s.now 0 1 3 }
    ensures { result ≡ shape_of s.now }
{
    let at = entry_in(s, SHAPE).offset;
    Shape {
        kind: s[0],
        products: s[at],
        customers: s[at + 1],
        weeks: s[at + 2],
    }
}

// Row 3.
#[tactic(auto, unfolding(crate::specs::Form::in_limits))]
fn is_in_limits(f: Shape) -> bool
    ensures { result ≡ in_limits f }
{
    (1..=MOST_PRODUCTS).contains(&u64::from(f.products))
        && (1..=MOST_CUSTOMERS).contains(&u64::from(f.customers))
        && (1..=MOST_WEEKS).contains(&u64::from(f.weeks))
}

// The length of each body of sections 1 to 12, each by its own table. A kind has the first of them, as many as it has sections.
fn lengths_of(f: Shape) -> [usize; 12]
    ensures { result ≡ all_lengths f }
{
    let n = usize::from(f.products);
    let nn = area(f.products, f.products);
    let cn = area(f.customers, f.products);
    let cnw = volume(f.customers, f.products, f.weeks);
    [
        3,
        4 * n,
        2 * nn,
        4 * nn,
        4 * cnw,
        4 * cn,
        4 * cn,
        4 * n,
        8 * n,
        4 * n + 4 * cn,
        4,
        2,
    ]
}

// The lengths of the bodies of a plant file, of which each kind of file has its own.
pub fn body_lengths(f: Shape) -> BodyLengths
    ensures { LengthsOf (file_kind f.kind) (plant_lengths f) result }
{
    let k = plant_kind(f.kind);
    BodyLengths {
        kind: k.number,
        first: FIRST,
        sections: k.sections,
        lengths: lengths_of(f),
    }
}

// The length of a plant file.
#[tactic(auto, using(crate::proofs::PlantKinds::kind_lengths))]
pub fn plant_length(f: Shape) -> usize
    ensures { (result ≡ start (plant_lengths f) (plant_kind f.kind).sections) × (result < 2 ^ 32) }
{
    body_lengths(f).file_length()
}

// Row 4.
#[tactic(auto, using(crate::proofs::PlantKinds::kind_lengths))]
fn has_lengths(s: &[u8], f: Shape) -> bool
    requires { contents_of f.kind ≤ length s.now }
    ensures { result ≡ sized s.now (plant_lengths f) }
{
    body_lengths(f).is_sized(s)
}

// Whether a product is the plant's, or stands for none.
#[tactic(auto, unfolding(crate::specs::Form::mounted_known))]
fn is_mounted_known(product: u64, f: Shape) -> bool
    ensures { result ≡ mounted_known f.products product }
{
    product < u64::from(f.products) || product == NOTHING_MOUNTED
}

// Rows 1 to 5: the plant's shape, or the number of the first row that turns it down.
#[tactic(auto, unfolding(crate::specs::Form::plant_form))]
pub fn plant_form(s: &[u8]) -> Result<Shape, Refusal>
    ensures { result ≡ plant_form s.now }
{
    if !is_plant_headed(s) {
        return Err(Refusal::PlantContents);
    }
    if !is_laid_out(s) {
        return Err(Refusal::PlantPlaces);
    }
    let f = shape_of(s);
    if !is_in_limits(f) {
        return Err(Refusal::PlantLimits);
    }
    if !has_lengths(s, f) {
        return Err(Refusal::PlantLengths);
    }
    let file = LaidFile { bytes: s, shape: f };
    if !file.is_in_range() {
        return Err(Refusal::PlantRanges);
    }
    Ok(f)
}

// ---- A list of rates beside a plant file: a number of 4 bytes for each product.

// Rate i of a list.
#[tactic(auto, unfolding(crate::specs::Rates::listed_rate))]
pub fn listed_rate(rates: &[u8], i: usize) -> u64
    requires { 4 * i + 4 ≤ length rates.now }
    ensures { result ≡ listed_rate rates.now i }
{
    read(rates, 4 * i, 4)
}

// Whether the first n rates of a list are within their range.
fn are_rates_in_range(rates: &[u8], n: usize) -> bool
    requires { 4 * n ≤ length rates.now }
    ensures { result ≡ all_below n (λ i. within 1 most_rate (listed_rate rates.now i)) }
{
    (0..n).all(|i| (1..=MOST_RATE).contains(&listed_rate(rates, i)))
}

// A list of N rates, or the number of its refusal.
#[tactic(auto, unfolding(crate::specs::Rates::rates_form))]
pub fn rates_form(rates: &[u8], f: Shape) -> Result<Shape, Refusal>
    ensures { result ≡ rates_form f rates.now }
{
    let n = usize::from(f.products);
    if rates.len() != 4 * n {
        return Err(Refusal::PlantLengths);
    }
    if !are_rates_in_range(rates, n) {
        return Err(Refusal::PlantRanges);
    }
    Ok(f)
}

// ---- The writing of sections, each at the start of what is lent.

// Stores section 1.
pub fn write_shape(out: &mut [u8], f: Shape)
    requires { 3 ≤ length out.old }
    ensures { out.new ≡ store out.old 0 (digits 1 f.products ++ (digits 1 f.customers ++ digits 1 f.weeks)) }
{
    write(out, 0, 1, u64::from(f.products));
    write(out, 1, 1, u64::from(f.customers));
    write(out, 2, 1, u64::from(f.weeks));
}

// Stores section 2, of a list's first n rates.
pub fn write_rates(out: &mut [u8], rates: &[u8], n: usize)
    requires { (4 * n ≤ length rates.now) × (4 * n ≤ length out.old) }
    ensures { out.new ≡ store out.old 0 (encode 4 n (listed_rate rates.now)) }
{
    for i in 0..n {
        write(out, 4 * i, 4, listed_rate(rates, i));
    }
}

// Stores section 12.
pub fn write_mounted(out: &mut [u8], product: u64, shut: u64)
    requires { 2 ≤ length out.old }
    ensures { out.new ≡ store out.old 0 (digits 1 product ++ digits 1 shut) }
{
    write(out, 0, 1, product);
    write(out, 1, 1, shut);
}
