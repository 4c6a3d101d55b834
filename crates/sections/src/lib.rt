// What plant, plan and slot files share: the refusals, a plant's shape, and tests on the numbers of a section.
#![tactic(auto)]

ghost use Rattle.std.specs.Prelude.{◌≡◌, ◌+◌, ◌*◌, ◌^◌, ◌≤◌, ◌<◌, length};
ghost use Rattle.mathematics.specs.Below.{sum_below};
ghost use Rattle.numbers.specs.Number.{encode, store};
ghost use Rattle.contents.specs.Contents.{cell};
ghost use Rattle.sections.specs.Section.{in_range, diagonal_zero, Holds};
ghost use Rattle.sections.specs.Pairs.{PairRowOf};
ghost use Rattle.sections.specs.Rows.{refusal_number};

use contents::entry_in;
use numbers::read;
use std::fmt;

// The kind of a plant file, and its N, C and W: the counts of products, customers and weeks. The kind is a byte, since a shape may have any
// byte: an enum of the kinds would ask more of callers.
#[derive(Clone, Copy, Debug, PartialEq, Eq)]
pub struct Shape {
    pub kind: u8,
    pub products: u8,
    pub customers: u8,
    pub weeks: u8,
}

// Why a file, a plan or a call is refused, with the paper's number: rows 1 to 5, 11 to 14 and 21 to 24, stop 25, rules 31 to 41 (of which 35, 36
// and 38 to 40 are stops too), and what the calls that write refuse. A list of rates is refused as a plant's section of them is, by 4 and 5.
#[derive(Clone, Copy, Debug, PartialEq, Eq)]
pub enum Refusal {
    PlantContents = 1,
    PlantPlaces = 2,
    PlantLimits = 3,
    PlantLengths = 4,
    PlantRanges = 5,
    PlanContents = 11,
    PlanPlaces = 12,
    PlanLengths = 13,
    PlanMarks = 14,
    SlotContents = 21,
    SlotPlaces = 22,
    SlotLengths = 23,
    SlotRanges = 24,
    ProductTwice = 25,
    Ends = 31,
    Sequence = 32,
    Passage = 33,
    Position = 34,
    RunMinutes = 35,
    WeekMinutes = 36,
    Production = 37,
    Backlog = 38,
    Inventory = 39,
    Storage = 40,
    Profit = 41,
    OutputLength = 51,
    WeeksLeft = 61,
    OpeningBacklog = 62,
}

impl Refusal {
    // The paper's number.
    pub fn number(self) -> u32
        ensures { result ≡ refusal_number self }
    {
        self as u32
    }
}

impl fmt::Display for Refusal {
    fn fmt<W: fmt::Write>(&self, f: &mut fmt::Formatter<W>) -> fmt::Result {
        write!(f, "{}", self.number())
    }
}

// How a section's numbers stand: how many bytes each has, and how many rows of how many numbers.
#[derive(Clone, Copy, Debug, PartialEq, Eq)]
pub struct Layout {
    pub width: usize,
    pub rows: usize,
    pub columns: usize,
}

// Where the weeks of a pair stand in a section of 4-byte numbers by customer, product and week. A pair is a customer times the count of
// products, plus a product.
#[derive(Clone, Copy, Debug, PartialEq, Eq)]
pub struct PairRow {
    pub section: usize,
    pub pair: usize,
    pub at: usize,
}

// The count of numbers in a table of a by b.
pub fn area(a: u8, b: u8) -> usize
    ensures { (result ≡ a * b) × (result ≤ 65025) }
{
    usize::from(a) * usize::from(b)
}

// The count of numbers in a table of a by b by c.
pub fn volume(a: u8, b: u8, c: u8) -> usize
    ensures { (result ≡ a * b * c) × (result ≤ 16581375) }
{
    area(a, b) * usize::from(c)
}

// Where row i, column j stands in a table of m by n.
pub fn index2(i: usize, m: u8, j: usize, n: u8) -> usize
    requires { (i < m) × (j < n) }
    ensures { (result ≡ i * n + j) × (result < m * n) × (result < 65025) }
{
    i * usize::from(n) + j
}

// Where place j of square i stands, of l squares of m by n.
pub fn square_place(i: usize, l: u8, j: usize, m: u8, n: u8) -> usize
    requires { (i < l) × (j < m * n) }
    ensures { (result ≡ i * (m * n) + j) × (result < l * m * n) × (result < 16581375) }
{
    i * area(m, n) + j
}

// Where a pair's weeks stand in a section. Bytes, shape and section are parameters: the row that is made of them is what travels on.
pub fn pair_row(s: &[u8], f: Shape, section: usize, pair: usize) -> PairRow
    requires { Holds s.now section 4 (f.customers * f.products * f.weeks) × (pair < f.customers * f.products) }
    ensures { PairRowOf f s.now result × (result.section ≡ section) × (result.pair ≡ pair) }
{
    let e = entry_in(s, section);
    let at = e.offset + 4 * (pair * usize::from(f.weeks));
    PairRow { section, pair, at }
}

// A pair's number of a week.
pub fn pair_number(s: &[u8], f: Shape, row: PairRow, week: usize) -> u64
    requires { PairRowOf f s.now row × (week < f.weeks) }
    ensures { (result ≡ cell 4 s.now row.section (row.pair * f.weeks + week)) × (result < 2 ^ 32) }
{
    read(s, row.at + 4 * week, 4)
}

// What the numbers of a product and a week come to over all customers.
pub fn customer_sum(s: &[u8], f: Shape, section: usize, product: usize, week: usize) -> u64
    requires { Holds s.now section 4 (f.customers * f.products * f.weeks) × (product < f.products) × (week < f.weeks) }
    ensures { (result ≡ sum_below f.customers (λ c. cell 4 s.now section ((c * f.products + product) * f.weeks + week)))
        × (result < 2 ^ 40) }
{
    let mut sum = 0;
    for customer in 0..usize::from(f.customers) {
        let pair = index2(customer, f.customers, product, f.products);
        let row = pair_row(s, f, section, pair);
        sum += pair_number(s, f, row, week);
    }
    sum
}

// Whether the numbers `from` to `from + m - 1` of section i, of k bytes each, are from lo to hi. Section, width and count are parameters of each
// test here, since few calls ask the same of a section. Every number is tried: a loop that ends early
// is not compiled to tests of several numbers at a time.
pub fn in_range(s: &[u8], i: usize, k: usize, from: usize, m: usize, lo: u64, hi: u64) -> bool
    requires { Holds s.now i k (from + m) }
    ensures { result ≡ in_range k s.now i from m lo hi }
{
    let e = entry_in(s, i);
    let start = e.offset + k * from;
    let mut within = true;
    for j in 0..m {
        within &= (lo..=hi).contains(&read(s, start + k * j, k));
    }
    within
}

// Stores the bytes of section i, m numbers of k bytes each, at the start of what is lent.
pub fn copy_section(out: &mut [u8], s: &[u8], i: usize, k: usize, m: usize)
    requires { Holds s.now i k m × (k * m ≤ length out.old) }
    ensures { out.new ≡ store out.old 0 (encode k m (cell k s.now i)) }
{
    let e = entry_in(s, i);
    let size = k * m;
    // Byte by byte: `copy_from_slice` calls C's `memmove`, which nothing else in the archive needs.
    for j in 0..size {
        out[j] = s[e.offset + j];
    }
}

// Whether the diagonal of section i, a table of n by n numbers of k bytes, is 0.
pub fn diagonal_zero(s: &[u8], i: usize, k: usize, n: usize) -> bool
    requires { Holds s.now i k (n * n) × (n < 256) }
    ensures { result ≡ diagonal_zero k s.now i n }
{
    let e = entry_in(s, i);
    (0..n).all(|j| read(s, e.offset + k * (j * n + j), k) == 0)
}
