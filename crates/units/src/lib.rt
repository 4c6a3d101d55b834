// Time, mass and money, and how one becomes another.
#![tactic(auto)]

ghost use Rattle.std.specs.Prelude.{◌≡◌, ◌+◌, ◌*◌, ◌^◌, ◌≤◌, ◌<◌, pos, ◌+ℤ◌, ◌-ℤ◌};
ghost use Rattle.std.specs.Int.Signed.{mag};
ghost use Rattle.sections.specs.Limits.{most_rate, most_unit_cost};

// Time.
#[derive(Clone, Copy, Debug, PartialEq, Eq, PartialOrd, Ord)]
pub struct Minutes(pub u64);

// Mass.
#[derive(Clone, Copy, Debug, PartialEq, Eq, PartialOrd, Ord)]
pub struct Grams(pub u64);

// Mass of each product: an array of the most products: there is no heap.
#[derive(Clone, Copy)]
pub struct ProductGrams(pub [u64; 16]);

// Mass of each pair of a customer and a product, likewise.
#[derive(Clone, Copy)]
pub struct PairGrams(pub [u32; 128]);

// Grams a minute.
#[derive(Clone, Copy, Debug, PartialEq, Eq, PartialOrd, Ord)]
pub struct Rate(pub u64);

// Money: what a changeover costs.
#[derive(Clone, Copy, Debug, PartialEq, Eq, PartialOrd, Ord)]
pub struct Cents(pub u64);

// Money: cents a kilogram, which are thousandths of a cent a gram.
#[derive(Clone, Copy, Debug, PartialEq, Eq, PartialOrd, Ord)]
pub struct UnitCost(pub u64);

// Money: thousandths of a cent, not below 0.
#[derive(Clone, Copy, Debug, PartialEq, Eq, PartialOrd, Ord)]
pub struct Thousandths(pub u64);

// Money: profit, in thousandths of a cent.
#[derive(Clone, Copy, Debug, PartialEq, Eq, PartialOrd, Ord)]
pub struct Profit(pub i64);

// What a changeover takes.
#[derive(Clone, Copy, Debug, PartialEq, Eq)]
pub struct Changeover {
    pub minutes: Minutes,
    pub cents: Cents,
}

// The mass that a run makes: rate times minutes.
pub fn produced(rate: Rate, time: Minutes) -> Grams
    requires { (rate.0 ≤ most_rate) × (time.0 < 2 ^ 16) }
    ensures { (result.0 ≡ rate.0 * time.0) × (result.0 < 2 ^ 33) }
{
    Grams(rate.0 * time.0)
}

// What a mass costs.
pub fn charge(cost: UnitCost, mass: Grams) -> Thousandths
    requires { (cost.0 ≤ most_unit_cost) × (mass.0 < 2 ^ 40) }
    ensures { (result.0 ≡ cost.0 * mass.0) × (result.0 ≤ most_unit_cost * mass.0) }
{
    Thousandths(cost.0 * mass.0)
}

// Cents as thousandths of a cent.
pub fn in_thousandths(money: Cents) -> Thousandths
    requires { money.0 < 2 ^ 40 }
    ensures { result.0 ≡ 1000 * money.0 }
{
    Thousandths(1000 * money.0)
}

// Profit plus an amount.
pub fn gain(profit: Profit, amount: Thousandths) -> Profit
    requires { mag profit.0 + amount.0 < 2 ^ 63 }
    ensures { (result.0 ≡ profit.0 +ℤ pos amount.0) × (mag result.0 ≤ mag profit.0 + amount.0) }
{
    Profit(profit.0 + (amount.0 as i64))
}

// Profit less an amount.
pub fn pay(profit: Profit, amount: Thousandths) -> Profit
    requires { mag profit.0 + amount.0 < 2 ^ 63 }
    ensures { (result.0 ≡ profit.0 -ℤ pos amount.0) × (mag result.0 ≤ mag profit.0 + amount.0) }
{
    Profit(profit.0 - (amount.0 as i64))
}
