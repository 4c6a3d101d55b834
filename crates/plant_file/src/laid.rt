// A plant file that passes rows 1 to 4: the tests of row 5.
ghost use Rattle.std.specs.Prelude.{◌≡◌};
ghost use Rattle.sections.specs.Section.{Laid};
ghost use Rattle.plant_file.specs.Form.{plant_lengths};

use crate::{
    BACKLOG_COST, CHANGEOVER_CENTS, CHANGEOVER_MINUTES, DEMAND, INVENTORY_COST,
    MOST_CHANGEOVER_CENTS, MOST_CHANGEOVER_MINUTES, MOST_DEMAND, MOST_RATE, MOST_STORAGE,
    MOST_UNIT_COST, MOST_WEEK_MINUTES, MOUNTED, NOTHING_MOUNTED, OPENING, PRICE, RATE, STORAGE,
    TIME, has_mounted, is_mounted_known, plant_kind,
};
use contents::cell_in;
use sections::{Shape, area, diagonal_zero, in_range, volume};

// The bytes of a plant file and its shape. Its bodies lie where they should and have the lengths that the shape gives.
#[derive(Clone, Copy)]
pub struct LaidFile<'a> {
    pub bytes: &'a [u8],
    pub shape: Shape,
    pub ghost laid: { Laid bytes.now (plant_lengths shape) },
}

impl<'a> LaidFile<'a> {
    ghost use Rattle.std.specs.Prelude.{cond, ◌+◌, ◌*◌, ◌<◌, ◌&&◌, leb};
    ghost use Rattle.sections.specs.Limits.{most_storage};
    ghost use Rattle.contents.specs.Contents.{cell};
    ghost use Rattle.plant_file.specs.Kinds.{has_mounted};
    ghost use Rattle.plant_file.specs.Form.{diagonals_in_range, mounted_in_range, line_in_range, market_in_range, storage_in_range};
    ghost use Rattle.plant_file.specs.Form.{opening_in_range, time_in_range, plant_in_range};

    // Every section.
    #[tactic(auto, unfolding(crate::specs::Form::plant_in_range))]
    pub fn is_in_range(self) -> bool
        ensures { result ≡ plant_in_range self.entry.bytes.now self.entry.shape }
    {
        self.is_line_in_range()
            && self.is_market_in_range()
            && self.is_storage_in_range()
            && self.is_opening_in_range()
            && self.is_time_in_range()
    }

    // Sections 2 to 4 and 12.
    #[tactic(auto, unfolding(crate::specs::Form::line_in_range))]
    fn is_line_in_range(self) -> bool
        ensures { result ≡ line_in_range self.entry.bytes.now self.entry.shape }
    {
        let n = usize::from(self.shape.products);
        let nn = area(self.shape.products, self.shape.products);
        in_range(self.bytes, RATE, 4, 0, n, 1, MOST_RATE)
            && in_range(
                self.bytes,
                CHANGEOVER_MINUTES,
                2,
                0,
                nn,
                0,
                MOST_CHANGEOVER_MINUTES,
            )
            && in_range(
                self.bytes,
                CHANGEOVER_CENTS,
                4,
                0,
                nn,
                0,
                MOST_CHANGEOVER_CENTS,
            )
            && self.are_diagonals_in_range()
            && self.is_mounted_in_range()
    }

    // The diagonals of sections 3 and 4.
    #[tactic(auto, unfolding(crate::specs::Form::diagonals_in_range))]
    fn are_diagonals_in_range(self) -> bool
        ensures { result ≡ diagonals_in_range self.entry.bytes.now self.entry.shape }
    {
        let n = usize::from(self.shape.products);
        plant_kind(self.shape.kind).diagonals
            || (diagonal_zero(self.bytes, CHANGEOVER_MINUTES, 2, n)
                && diagonal_zero(self.bytes, CHANGEOVER_CENTS, 4, n))
    }

    // Section 12.
    #[tactic(auto, unfolding(crate::specs::Form::mounted_in_range, crate::specs::Plant::mounted_in, crate::specs::Plant::shut_before_in))]
    fn is_mounted_in_range(self) -> bool
        ensures { result ≡ mounted_in_range self.entry.bytes.now self.entry.shape }
    {
        let product = self.opening_byte(0, NOTHING_MOUNTED);
        let shut_before = self.opening_byte(1, 0);
        shut_before <= 1 && is_mounted_known(product, self.shape)
    }

    // Number j of section 12, or what a kind without that section reads as: a number as well, since the plant has one in both cases.
    pub fn opening_byte(self, j: usize, absent: u64) -> u64
        requires { j < 2 }
        ensures { result ≡ cond (has_mounted self.entry.shape.kind) (cell 1 self.entry.bytes.now 11 j) absent }
    {
        if has_mounted(self.shape) {
            return cell_in(self.bytes, MOUNTED, 1, j);
        }
        absent
    }

    // Sections 5 to 8.
    #[tactic(auto, unfolding(crate::specs::Form::market_in_range))]
    fn is_market_in_range(self) -> bool
        ensures { result ≡ market_in_range self.entry.bytes.now self.entry.shape }
    {
        let n = usize::from(self.shape.products);
        let cn = area(self.shape.customers, self.shape.products);
        let cnw = volume(self.shape.customers, self.shape.products, self.shape.weeks);
        in_range(self.bytes, DEMAND, 4, 0, cnw, 0, MOST_DEMAND)
            && in_range(self.bytes, PRICE, 4, 0, cn, 0, MOST_UNIT_COST)
            && in_range(self.bytes, BACKLOG_COST, 4, 0, cn, 0, MOST_UNIT_COST)
            && in_range(self.bytes, INVENTORY_COST, 4, 0, n, 0, MOST_UNIT_COST)
    }

    // Section 9.
    #[tactic(auto, unfolding(crate::specs::Form::storage_in_range))]
    fn is_storage_in_range(self) -> bool
        ensures { result ≡ storage_in_range self.entry.bytes.now self.entry.shape.products }
    {
        (0..usize::from(self.shape.products)).all(|i| self.is_product_storage_in_range(i))
    }

    // The same of a product.
    fn is_product_storage_in_range(self, product: usize) -> bool
        requires { product < self.shape.products }
        ensures { let s = self.entry.bytes.now in
            result ≡ (leb (cell 4 s 8 (2 * product)) (cell 4 s 8 (2 * product + 1)) && leb (cell 4 s 8 (2 * product + 1)) most_storage) }
    {
        let least = cell_in(self.bytes, STORAGE, 4, 2 * product);
        let greatest = cell_in(self.bytes, STORAGE, 4, 2 * product + 1);
        least <= greatest && greatest <= MOST_STORAGE
    }

    // Section 10.
    #[tactic(auto, unfolding(crate::specs::Form::opening_in_range))]
    fn is_opening_in_range(self) -> bool
        ensures { result ≡ opening_in_range self.entry.bytes.now self.entry.shape }
    {
        let n = usize::from(self.shape.products);
        let cn = area(self.shape.customers, self.shape.products);
        let most_backlog = plant_kind(self.shape.kind).backlog;
        in_range(self.bytes, OPENING, 4, 0, n, 0, MOST_STORAGE)
            && in_range(self.bytes, OPENING, 4, n, cn, 0, most_backlog)
    }

    // Section 11.
    #[tactic(auto, unfolding(crate::specs::Form::time_in_range))]
    fn is_time_in_range(self) -> bool
        ensures { result ≡ time_in_range self.entry.bytes.now }
    {
        let shortest = cell_in(self.bytes, TIME, 2, 0);
        let week = cell_in(self.bytes, TIME, 2, 1);
        (1..=week).contains(&shortest) && week <= MOST_WEEK_MINUTES
    }
}
