// The plant machine: its state, and its three steps as methods by value. Each gives the whole state back, with a stop or without; at a
// stop it is the state from before the step.
#![tactic(auto)]

ghost use Rattle.std.specs.Prelude.{◌≡◌, ◌-◌, ◌^◌, ◌≤◌, ◌<◌, replicate};
ghost use Rattle.plant_file.specs.Accepted.{plant_in};
ghost use Rattle.slot_file.specs.Row.{slot_of, slots_in};
ghost use Rattle.machine.specs.Machine.{week_begin, clock_after, slot_stops, slot_done, slot_step, week_end};
ghost use Rattle.machine.specs.State.{has_run, update_row, update_rows, first_met, step_of};
ghost use Rattle.machine.specs.Files.{BacklogAnswer, InventoryAnswer};
ghost use Rattle.machine.specs.Row.{Runnable};
ghost use Rattle.machine.specs.Run.{opening, run_slots, run_week, run};
ghost use Rattle.machine.specs.Bounds.{Sane, Roomy};

use costs::{changeover_to, opening_mounted};
use plant_file::PlantFile;
use sections::{Refusal, area};
use slot_file::{Slot, SlotFile};
use units::{
    Grams, Minutes, PairGrams, ProductGrams, Profit, Rate, Thousandths, UnitCost, charge, gain,
    in_thousandths, pay, produced,
};

// What a run takes: a plant file, and a slot file for its plant.
#[derive(Clone, Copy)]
pub struct RunInput<'plant, 'slots> {
    pub plant: PlantFile<'plant>,
    pub slots: SlotFile<'slots>,
    pub ghost same: { slots.shape ≡ plant.shape },
}

// What belongs to one line.
#[derive(Clone, Copy, Debug, PartialEq, Eq)]
pub struct LineState {
    // Minutes of the week that are used.
    pub clock: Minutes,
    // The products run this week: binary digit i for product i.
    pub ran: u64,
    pub mounted: Option<u8>,
}

// Arrays of the most that a plant may have: there is no heap. A number stands between them and what has unused bytes comes last, and no array is
// indexed where it stands: the compiler can then hold each field apart.
#[derive(Clone, Copy, Debug, PartialEq, Eq)]
pub struct State {
    // Grams owed to customer c of product i, at c * N + i (the paper's owed).
    pub backlog: [u32; 128],
    // Profit so far (the paper's purse).
    pub profit: Profit,
    // Grams of each product (the paper's stock).
    pub inventory: [u64; 16],
    pub line: LineState,
}

// Where a run has stopped: the state from before the step that stopped it, and the stop's number.
#[derive(Clone, Copy, Debug, PartialEq, Eq)]
pub struct Stopped {
    pub state: State,
    pub refusal: Refusal,
}

// A run that stops is refused with the stop's number.
impl From<Stopped> for Refusal {
    ghost from_gives = { λ stopped refusal. refusal ≡ stopped.refusal };

    fn from(stopped: Stopped) -> Refusal {
        stopped.refusal
    }
}

// What the end of a week makes of the backlog: the new one, what the sales bring, and what it costs.
#[derive(Clone, Copy)]
pub struct BacklogUpdate {
    pub backlog: PairGrams,
    pub revenue: Thousandths,
    pub charge: Thousandths,
}

// What the end of a week makes of the inventory: the new one, and what it costs.
#[derive(Clone, Copy)]
pub struct InventoryUpdate {
    pub inventory: ProductGrams,
    pub charge: Thousandths,
}

// What is left of a mass once another is taken from it.
fn less(mass: Grams, taken: Grams) -> Grams
    requires { taken.0 ≤ mass.0 }
    ensures { result.0 ≡ mass.0 - taken.0 }
{
    Grams(mass.0 - taken.0)
}

impl State {
    ghost use Rattle.machine.specs.Input.{week_in};

    // Clock 0, no product run.
    #[tactic(auto, unfolding(crate::specs::Machine::week_begin, crate::specs::State::with_line, crate::specs::State::with_week))]
    pub fn week_begin(self) -> State
        ensures { result ≡ week_begin self }
    {
        let line = self.line;
        let begun = LineState {
            clock: Minutes(0),
            ran: 0,
            ..line
        };
        State {
            line: begun,
            ..self
        }
    }

    // The clock after a run: the changeover's minutes, and the run's.
    #[tactic(auto, unfolding(crate::specs::Machine::clock_after))]
    fn clock_after(self, plant: PlantFile, slot: Slot) -> Minutes
        requires { (slot.product < plant.shape.products) × (slot.minutes.0 < 2 ^ 16) × Roomy plant.shape self }
        ensures { result.0 ≡ clock_after (plant_in plant.entry).line (slot_of slot) self }
    {
        let line = self.line;
        let over = changeover_to(plant, line.mounted, slot.product);
        Minutes(line.clock.0 + over.minutes.0 + slot.minutes.0)
    }

    // The state after a run that does not stop.
    fn slot_done(self, plant: PlantFile, slot: Slot) -> State
        requires { (slot.product < plant.shape.products) × (slot.minutes.0 < 2 ^ 16) × Roomy plant.shape self }
        ensures { result ≡ slot_done (plant_in plant.entry).line (slot_of slot) self }
    {
        let Slot { product, minutes } = slot;
        let line = self.line;
        let over = changeover_to(plant, line.mounted, product);
        let grams = produced(Rate(plant.rate(product)), minutes);
        let mut inventory = self.inventory;
        inventory[product] += grams.0;
        let ran = line.ran + (1u64 << product);
        let clock = self.clock_after(plant, slot);
        let profit = pay(self.profit, in_thousandths(over.cents));
        let left = LineState {
            clock,
            ran,
            mounted: Some(product as u8),
        };
        State {
            inventory,
            line: left,
            profit,
            ..self
        }
    }

    // Whether a product has run this week.
    #[tactic(auto, unfolding(crate::specs::State::has_run))]
    fn has_run(self, product: usize) -> bool
        requires { product < 16 }
        ensures { result ≡ has_run self product }
    {
        let line = self.line;
        (line.ran >> product) % 2 == 1
    }

    // How a run ends: stop 25, 35 or 36, or none.
    fn slot_outcome(self, plant: PlantFile, slot: Slot) -> Result<(), Refusal>
        requires { (slot.product < plant.shape.products) × (slot.minutes.0 < 2 ^ 16) × Roomy plant.shape self }
        ensures { let p = plant_in plant.entry in result ≡ first_met (slot_stops p p.line (slot_of slot) self) }
    {
        if self.has_run(slot.product) {
            return Err(Refusal::ProductTwice);
        }
        if slot.minutes.0 < plant.shortest_run() {
            return Err(Refusal::RunMinutes);
        }
        let clock = self.clock_after(plant, slot);
        if plant.week_minutes() < clock.0 {
            return Err(Refusal::WeekMinutes);
        }
        Ok(())
    }

    // One run: stop 25, 35 or 36, or the state after it. What it asks of slot and state is a clause of the steps: a state has room for the
    // week that it stands in, and a slot is one of a plant's.
    #[tactic(auto, unfolding(crate::specs::Machine::slot_step))]
    pub fn slot(self, plant: PlantFile, slot: Slot) -> Result<State, Stopped>
        requires { (slot.product < plant.shape.products) × (slot.minutes.0 < 2 ^ 16) × Roomy plant.shape self }
        ensures { let p = plant_in plant.entry in step_of result ≡ slot_step p p.line (slot_of slot) self }
    {
        match self.slot_outcome(plant, slot) {
            Ok(()) => Ok(self.slot_done(plant, slot)),
            Err(refusal) => Err(Stopped {
                state: self,
                refusal,
            }),
        }
    }

    // The demand added to the backlog and the sales taken from it, pair by pair; stop 38 where they exceed it.
    fn backlog_update(self, input: RunInput, week: usize) -> Result<BacklogUpdate, Refusal>
        requires { (week < input.plant.shape.weeks) × Roomy input.plant.shape self }
        ensures { BacklogAnswer (plant_in input.entry.plant) (week_in input.entry week) self result }
    {
        let shape = input.plant.shape;
        let mut backlog = self.backlog;
        let mut revenue = 0;
        let mut cost = 0;
        for pair in 0..area(shape.customers, shape.products) {
            let owed = Grams(u64::from(backlog[pair]) + input.plant.pair_demand(pair, week));
            let sold = Grams(input.slots.pair_sales(pair, week));
            if owed < sold {
                return Err(Refusal::Backlog);
            }
            let left = less(owed, sold);
            backlog[pair] = left.0 as u32;
            let bought = charge(UnitCost(input.plant.pair_price(pair)), sold);
            let late = charge(UnitCost(input.plant.pair_backlog_cost(pair)), left);
            revenue += bought.0;
            cost += late.0;
        }
        Ok(BacklogUpdate {
            backlog: PairGrams(backlog),
            revenue: Thousandths(revenue),
            charge: Thousandths(cost),
        })
    }

    // The sales taken from the inventory, product by product; stop 39 where those of a product exceed it, and, once all are
    // taken, stop 40 where what is left of one is outside its limits.
    fn inventory_update(self, input: RunInput, week: usize) -> Result<InventoryUpdate, Refusal>
        requires { (week < input.plant.shape.weeks) × Roomy input.plant.shape self }
        ensures { InventoryAnswer (plant_in input.entry.plant) (week_in input.entry week) self result }
    {
        let plant = input.plant;
        let mut inventory = self.inventory;
        let mut kept = true;
        let mut cost = 0;
        for product in 0..usize::from(plant.shape.products) {
            let sold = Grams(input.slots.sold(week, product));
            let before = Grams(inventory[product]);
            if before < sold {
                return Err(Refusal::Inventory);
            }
            let left = less(before, sold);
            let least = Grams(plant.least_storage(product));
            let most = Grams(plant.greatest_storage(product));
            kept &= least <= left && left <= most;
            inventory[product] = left.0;
            let held = charge(UnitCost(plant.inventory_cost(product)), left);
            cost += held.0;
        }
        if !kept {
            return Err(Refusal::Storage);
        }
        Ok(InventoryUpdate {
            inventory: ProductGrams(inventory),
            charge: Thousandths(cost),
        })
    }

    // The end of a week: stop 38, 39 or 40, or the state after it.
    pub fn week_end(self, input: RunInput, week: usize) -> Result<State, Stopped>
        requires { (week < input.plant.shape.weeks) × Sane input.plant.shape week 16 self }
        ensures { step_of result ≡ week_end (plant_in input.entry.plant) (week_in input.entry week) self }
    {
        // By `match`: an answer that passes through `map_err` has the state copied five times more a week.
        let carried = match self.backlog_update(input, week) {
            Ok(carried) => carried,
            Err(refusal) => {
                return Err(Stopped {
                    state: self,
                    refusal,
                });
            }
        };
        let sold = match self.inventory_update(input, week) {
            Ok(sold) => sold,
            Err(refusal) => {
                return Err(Stopped {
                    state: self,
                    refusal,
                });
            }
        };
        let profit = pay(
            pay(gain(self.profit, carried.revenue), carried.charge),
            sold.charge,
        );
        let inventory = sold.inventory.0;
        let backlog = carried.backlog.0;
        Ok(State {
            inventory,
            backlog,
            profit,
            ..self
        })
    }

    // The slots of a row in their order; the first stop ends the run.
    pub fn run_row(self, plant: PlantFile, row: &[Slot]) -> Result<State, Stopped>
        requires { Runnable plant.shape (slots_in row.now) self }
        ensures { let p = plant_in plant.entry in step_of result ≡ run_slots p p.line (slots_in row.now) self }
    {
        let mut state = self;
        for slot in row {
            state = state.slot(plant, *slot)?;
        }
        Ok(state)
    }

    // The slots of a week.
    pub fn run_slots(self, input: RunInput, week: usize) -> Result<State, Stopped>
        requires { (week < input.plant.shape.weeks) × Sane input.plant.shape week 0 self }
        ensures { let p = plant_in input.entry.plant in step_of result ≡ run_slots p p.line (week_in input.entry week).slots self }
    {
        let row = input.slots.week_slots(week);
        self.run_row(input.plant, row.as_slice())
    }

    // A week: its begin, its slots, its end; the first stop ends it.
    pub fn run_week(self, input: RunInput, week: usize) -> Result<State, Stopped>
        requires { (week < input.plant.shape.weeks) × Sane input.plant.shape week 0 self }
        ensures { step_of result ≡ run_week (plant_in input.entry.plant) (week_in input.entry week) self }
    {
        self.week_begin()
            .run_slots(input, week)?
            .week_end(input, week)
    }
}

// Section 10's inventory, product by product.
#[tactic(auto, using(crate::proofs::Stores::row_stored))]
fn opening_row(plant: PlantFile) -> ProductGrams
    ensures { let p = plant_in plant.entry in result.0 ≡ update_row 0 p.products (λ i _. p.opening_inventory i) (replicate 16 0) }
{
    let mut row = [0; 16];
    for product in 0..usize::from(plant.shape.products) {
        row[product] = plant.opening_inventory(product);
    }
    ProductGrams(row)
}

// Section 10's backlog, pair by pair: apart from the inventory, since its numbers have 4 bytes in the state.
#[tactic(auto, using(crate::proofs::Stores::row_stored, crate::proofs::Flat::rows_flat))]
fn opening_table(plant: PlantFile) -> PairGrams
    ensures { let p = plant_in plant.entry in
        result.0 ≡ update_rows p.customers p.products (λ c i _. p.opening_backlog c i) (replicate 128 0) }
{
    let mut table = [0; 128];
    for pair in 0..area(plant.shape.customers, plant.shape.products) {
        table[pair] = plant.pair_opening_backlog(pair) as u32;
    }
    PairGrams(table)
}

// The state before the first week.
#[tactic(auto, unfolding(crate::specs::Run::opening))]
pub fn opening_state(plant: PlantFile) -> State
    ensures { result ≡ opening (plant_in plant.entry) }
{
    let inventory = opening_row(plant).0;
    let backlog = opening_table(plant).0;
    let mounted = opening_mounted(plant);
    let line = LineState {
        clock: Minutes(0),
        ran: 0,
        mounted,
    };
    State {
        backlog,
        profit: Profit(0),
        inventory,
        line,
    }
}

impl RunInput<'_, '_> {
    ghost use Rattle.machine.specs.Input.{slots_in_run};

    // The run of the slot file; the first stop ends it.
    pub fn run(self) -> Result<State, Stopped>
        ensures { step_of result ≡ run (plant_in self.entry.plant) (slots_in_run self.entry) }
    {
        let mut state = opening_state(self.plant);
        for week in 0..usize::from(self.plant.shape.weeks) {
            state = state.run_week(self, week)?;
        }
        Ok(state)
    }
}
