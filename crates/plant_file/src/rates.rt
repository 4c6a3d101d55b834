// A list of rates that is accepted beside a plant file.
ghost use Rattle.std.specs.Prelude.{◌≡◌, Ok};
ghost use Rattle.plant_file.specs.Rates.{rates_form};

use crate::{listed_rate, rates_form, write_rates};
use sections::{Refusal, Shape};

// The bytes of a list and the shape of its plant. It has a rate for each product, and each is in its range.
#[derive(Clone, Copy)]
pub struct RateList<'a> {
    pub bytes: &'a [u8],
    pub shape: Shape,
    pub ghost accepted: { rates_form shape bytes.now ≡ Ok shape },
}

impl<'a> RateList<'a> {
    ghost use Rattle.std.specs.Prelude.{Err, MatchResult, ◌*◌, ◌≤◌, length};
    ghost use Rattle.numbers.specs.Number.{encode, store};
    ghost use Rattle.plant_file.specs.Rates.{listed_rate};

    // By a test of its own: the list of these bytes, or the number of its refusal.
    #[tactic(auto, using(crate::proofs::GoodRates::rates_decided))]
    pub fn read(bytes: &'a [u8], shape: Shape) -> Result<RateList<'a>, Refusal>
        ensures { MatchResult result
            (λ rates. (rates.bytes.now ≡ bytes.now) × (rates.shape ≡ shape) × (rates_form shape bytes.now ≡ Ok shape))
            (λ refusal. rates_form shape bytes.now ≡ Err refusal) }
    {
        rates_form(bytes, shape)?;
        Ok(RateList { bytes, shape })
    }

    // Stores section 2.
    pub fn write(self, out: &mut [u8])
        requires { 4 * self.shape.products ≤ length out.old }
        ensures { out.new ≡ store out.old 0 (encode 4 self.entry.shape.products (listed_rate self.entry.bytes.now)) }
    {
        write_rates(out, self.bytes, usize::from(self.shape.products));
    }
}
