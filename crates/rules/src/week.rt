// Rules 31, 32 and 34, which read one week's tables, and which weeks are shut.
#![tactic(auto)]

ghost use Rattle.std.specs.Prelude.{◌≡◌, ◌≤◌, ◌<◌};
ghost use Rattle.mathematics.specs.Below.{all_below};
ghost use Rattle.mathematics.specs.Week.{marked_once, shut, rule31, rule32, rule34};
ghost use Rattle.plan_file.specs.Accepted.{plan_in};
ghost use Rattle.plan_file.specs.Tables.{product_table_of};
ghost use Rattle.rules.specs.Rules.{week_of, production_end};
ghost use Rattle.rules.specs.Products.{sequence_at, position_at, follows_at};

use plan_file::{ArcSums, ChangeoverTable, PlanFile, ProductTable};

// 31: one mark in a table, on a product that is made.
fn marked_once(plan: PlanFile, table: ProductTable, week: usize) -> bool
    requires { week < plan.shape.weeks }
    ensures { result ≡ marked_once plan.entry.shape.products (product_table_of table (plan_in plan.entry) week)
        ((plan_in plan.entry).line.assigned week) }
{
    plan.week_sum(table, week) == 1
        && (0..usize::from(plan.shape.products)).all(|product| {
            plan.number(table, week, product) != 1 || plan.assigned(week, product) == 1
        })
}

// Whether a week is shut: none of E, F and L.
#[tactic(auto, unfolding(mathematics::specs::Week::shut, crate::specs::Rules::week_of))]
pub fn is_shut(plan: PlanFile, week: usize) -> bool
    requires { week < plan.shape.weeks }
    ensures { result ≡ shut plan.entry.shape.products (week_of (plan_in plan.entry).line week) }
{
    plan.week_sum(ProductTable::Assigned, week) == 0
        && plan.week_sum(ProductTable::First, week) == 0
        && plan.week_sum(ProductTable::Last, week) == 0
}

// 31 in a week.
#[tactic(auto, unfolding(mathematics::specs::Week::rule31, mathematics::specs::Week::one_each, crate::specs::Rules::week_of))]
pub(crate) fn marks_in(plan: PlanFile, week: usize) -> bool
    requires { week < plan.shape.weeks }
    ensures { result ≡ rule31 plan.entry.shape.products (week_of (plan_in plan.entry).line week) }
{
    let once = marked_once(plan, ProductTable::First, week)
        && marked_once(plan, ProductTable::Last, week);
    once || is_shut(plan, week)
}

// 32 at a product, with the sums into it and out of it.
#[tactic(auto, unfolding(crate::specs::Products::sequence_at))]
fn sequence_at(plan: PlanFile, week: usize, product: usize, into: u8, out: u8) -> bool
    requires { (week < plan.shape.weeks) × (product < plan.shape.products) }
    ensures { result ≡ sequence_at into out (plan_in plan.entry).line week product }
{
    let made = plan.assigned(week, product);
    plan.changeover(ChangeoverTable::Within, week, product, product) == 0
        && u64::from(into) + plan.first(week, product) == made
        && u64::from(out) + plan.last(week, product) == made
}

// 32 in a week.
pub(crate) fn sequence_in(plan: PlanFile, week: usize) -> bool
    requires { (week < plan.shape.weeks) × (plan.shape.products ≤ 16) }
    ensures { result ≡ rule32 plan.entry.shape.products (week_of (plan_in plan.entry).line week) }
{
    let ArcSums { into, out } = plan.arc_sums(ChangeoverTable::Within, week);
    (0..usize::from(plan.shape.products)).all(|product| sequence_at(
        plan,
        week,
        product,
        into[product],
        out[product],
    ))
}

// The weeks up to the last producing week before a week, that one counted too; 0 if there is none.
pub fn production_end(plan: PlanFile, week: usize) -> usize
    requires { week ≤ plan.shape.weeks }
    ensures { (result ≡ production_end plan.entry.shape.products (plan_in plan.entry).line week) × (result ≤ week) }
{
    for earlier in (0..week).rev() {
        if !is_shut(plan, earlier) {
            return earlier + 1;
        }
    }
    0
}

// 34: the place of one product, in a week of this many.
#[tactic(auto, unfolding(crate::specs::Products::position_at))]
fn position_at(plan: PlanFile, week: usize, product: usize, made: u64) -> bool
    requires { (week < plan.shape.weeks) × (product < plan.shape.products) }
    ensures { result ≡ position_at made (plan_in plan.entry).line week product }
{
    let position = plan.position(week, product);
    if plan.assigned(week, product) == 0 {
        return position == 0;
    }
    (1..=made).contains(&position)
}

// 34: a product that follows another has a later place.
fn follows_at(plan: PlanFile, week: usize, from: usize, to: usize) -> bool
    requires { (week < plan.shape.weeks) × (from < plan.shape.products) × (to < plan.shape.products) }
    ensures { result ≡ follows_at (plan_in plan.entry).line week from to }
{
    let mark = plan.changeover(ChangeoverTable::Within, week, from, to);
    let before = plan.position(week, from);
    let after = plan.position(week, to);
    mark != 1 || before + 1 <= after
}

// 34: so have all that follow it. All are tried: a loop that ends early is not compiled to tests of several products at a time.
fn follows_from(plan: PlanFile, week: usize, from: usize) -> bool
    requires { (week < plan.shape.weeks) × (from < plan.shape.products) }
    ensures { result ≡ all_below plan.entry.shape.products (follows_at (plan_in plan.entry).line week from) }
{
    let mut kept = true;
    for to in 0..usize::from(plan.shape.products) {
        kept &= follows_at(plan, week, from, to);
    }
    kept
}

// 34 in a week.
pub(crate) fn positions_in(plan: PlanFile, week: usize) -> bool
    requires { week < plan.shape.weeks }
    ensures { result ≡ rule34 plan.entry.shape.products (week_of (plan_in plan.entry).line week) }
{
    let made = plan.week_sum(ProductTable::Assigned, week);
    (0..usize::from(plan.shape.products)).all(|product| {
        position_at(plan, week, product, made) && follows_from(plan, week, product)
    })
}
