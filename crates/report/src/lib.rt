// The text of planreport. Each writer stores its text in the lent output from a position on, and answers the position behind it. The two are
// separate arguments: of one struct that held both, each writer would also have to ensure that it still holds the same reference.
#![tactic(auto)]

ghost use Rattle.std.specs.Prelude.{◌≡◌, [], ◌∷◌, ◌++◌, ◌+◌, ◌≤◌, ◌<◌, length};
ghost use Rattle.numbers.specs.Number.{store};
ghost use Rattle.passed_plan.specs.Shown.{Ordered};
ghost use Rattle.report.specs.Text.{decimal, signed_decimal, line};
ghost use Rattle.report.specs.Stored.{Stored};
ghost use Rattle.report.specs.Report.{first_line, report_text};

use costs::changeover_to;
use passed_plan::{PassedPlan, mounted_product, product_at, week_count};
use rules::Candidate;
use sections::Refusal;
use units::Profit;

fn write_byte(out: &mut [u8], at: usize, byte: u8) -> usize
    requires { at < length out.old }
    ensures { Stored out.old at (byte ∷ []) result out.new }
{
    out[at] = byte;
    at + 1
}

fn write_bytes(out: &mut [u8], at: usize, text: &[u8]) -> usize
    requires { at + length text.now ≤ length out.old }
    ensures { Stored out.old at text.now result out.new }
{
    let end = at + text.len();
    out[at..end].copy_from_slice(text);
    end
}

// How many digits v has.
fn digit_count(v: u64) -> usize
    ensures { result ≡ length (decimal v) }
{
    v.max(1).ilog10() as usize + 1
}

// The digits, from the last one back. By hand: `write!` gives its text to a writer that may refuse it, and the contract is an equation with
// the text.
fn write_decimal(out: &mut [u8], at: usize, v: u64) -> usize
    requires { at + length (decimal v) ≤ length out.old }
    ensures { Stored out.old at (decimal v) result out.new }
{
    let end = at + digit_count(v);
    let mut left = v;
    for p in (at..end).rev() {
        out[p] = b'0' + (left % 10) as u8;
        left /= 10;
    }
    end
}

fn write_signed(out: &mut [u8], at: usize, z: i64) -> usize
    requires { at + length (signed_decimal z) ≤ length out.old }
    ensures { Stored out.old at (signed_decimal z) result out.new }
{
    let digits = if z < 0 { write_byte(out, at, b'-') } else { at };
    write_decimal(out, digits, z.unsigned_abs())
}

// A number, and the byte that ends it.
fn write_field(out: &mut [u8], at: usize, v: u64, end: u8) -> usize
    requires { at + length (decimal v) < length out.old }
    ensures { Stored out.old at (decimal v ++ (end ∷ [])) result out.new × (result ≡ at + length (decimal v) + 1) }
{
    let p = write_decimal(out, at, v);
    write_byte(out, p, end)
}

fn write_line(
    out: &mut [u8],
    at: usize,
    week: u64,
    product: u64,
    change: u64,
    start: u64,
    end: u64,
) -> usize
    requires { at + length (line week (product ∷ change ∷ start ∷ end ∷ [])) ≤ length out.old }
    ensures { Stored out.old at (line week (product ∷ change ∷ start ∷ end ∷ [])) result out.new }
{
    let a = write_field(out, at, week, b' ');
    let b = write_field(out, a, product, b' ');
    let c = write_field(out, b, change, b' ');
    let d = write_field(out, c, start, b' ');
    write_field(out, d, end, b'\n')
}

// The first line: the profit, or the number of the refusal.
fn write_first(out: &mut [u8], check: Result<Profit, Refusal>) -> usize
    requires { 29 ≤ length out.old }
    ensures { Stored out.old 0 (first_line check) result out.new }
{
    match check {
        Ok(profit) => {
            let p = write_bytes(out, 0, b"passed ");
            let q = write_signed(out, p, profit.0);
            write_byte(out, q, b'\n')
        }
        Err(refusal) => {
            let p = write_bytes(out, 0, b"refused ");
            write_field(out, p, u64::from(refusal.number()), b'\n')
        }
    }
}

// A plan file that passes, and the plant file of its plant: in each week each slot has its product.
#[derive(Clone, Copy)]
struct PassedFiles<'plant, 'plan> {
    files: Candidate<'plant, 'plan>,
    ghost ordered: { Ordered files.plan.shape files.plan.bytes.now },
}

impl PassedFiles<'_, '_> {
    ghost use Rattle.std.specs.Prelude.{◌+◌, ◌≤◌, ◌<◌, length};
    ghost use Rattle.mathematics.specs.Below.{join_below};
    ghost use Rattle.report.specs.Stored.{Stored};
    ghost use Rattle.report.specs.Files.{week_in};

    // A line for each slot of a week.
    fn write_week(self, out: &mut [u8], at: usize, week: usize) -> usize
        requires { (week < self.files.plan.shape.weeks) × (at + length (week_in self week) ≤ length out.old) }
        ensures { Stored out.old at (week_in self.entry week) result out.new }
    {
        let Candidate { plant, plan } = self.files;
        let mut mounted = mounted_product(self.files, week);
        let mut clock = 0;
        let mut p = at;
        for k in 0..week_count(plan, week) {
            let product = product_at(plan, week, k);
            let change = changeover_to(plant, mounted, product).minutes.0;
            let start = clock + change;
            let end = start + plan.minutes(week, product);
            p = write_line(out, p, week as u64 + 1, product as u64, change, start, end);
            mounted = Some(product as u8);
            clock = end;
        }
        p
    }

    fn write_weeks(self, out: &mut [u8], at: usize) -> usize
        requires { at + length (join_below self.files.plan.shape.weeks (week_in self)) ≤ length out.old }
        ensures { Stored out.old at (join_below self.entry.files.plan.shape.weeks (week_in self.entry)) result out.new }
    {
        let mut p = at;
        for week in 0..usize::from(self.files.plan.shape.weeks) {
            p = self.write_week(out, p, week);
        }
        p
    }
}

// What planreport prints of a plant file and a plan file: its length.
pub fn report_text(plant: &[u8], plan: &[u8], out: &mut [u8; 16384]) -> usize
    ensures { (result ≤ length out.new) × (result ≡ length (report_text plant.now plan.now))
        × (out.new ≡ store out.old 0 (report_text plant.now plan.now)) }
{
    match PassedPlan::read(plant, plan) {
        Err(refusal) => write_first(out, Err(refusal)),
        Ok(passed) => {
            let at = write_first(out, Ok(passed.profit));
            let files = passed.files;
            PassedFiles { files }.write_weeks(out, at)
        }
    }
}
