// What is mounted on the line, what changeovers take, and what a week's grams are worth.
#![tactic(auto)]

ghost use Rattle.std.specs.Prelude.{◌*◌, ◌/◌, ◌%◌, ◌<◌, ◌≡◌, Some};
ghost use Rattle.plant_file.specs.Accepted.{plant_in};
ghost use Rattle.costs.specs.Mounted.{mounted_below, is_mounted, opening_mounted, mounted_number};
ghost use Rattle.costs.specs.Changeover.{LookedUp};

use plant_file::{NOTHING_MOUNTED, PlantFile};
use sections::index2;
use units::{Cents, Changeover, Minutes};

// What is mounted before the first week.
pub fn opening_mounted(plant: PlantFile) -> Option<u8>
    ensures { (result ≡ opening_mounted (plant_in plant.entry).line) × mounted_below plant.entry.shape.products result }
{
    let product = plant.mounted();
    let is_nothing = product == NOTHING_MOUNTED;
    if is_nothing {
        return None;
    }
    Some(product as u8)
}

// What section 12 has for what is mounted.
pub fn mounted_number(mounted: Option<u8>) -> u64
    ensures { result ≡ mounted_number mounted }
{
    match mounted {
        None => NOTHING_MOUNTED,
        Some(p) => u64::from(p),
    }
}

// 1 where a product is mounted, else 0: a number, since rule 33 and the tables add and multiply it.
#[tactic(auto, unfolding(mathematics::specs::Below::is))]
pub fn is_mounted(mounted: Option<u8>, product: usize) -> u64
    ensures { (result ≡ is_mounted mounted product) × (result < 2) }
{
    match mounted {
        None => 0,
        Some(p) => u64::from(usize::from(p) == product),
    }
}

// The changeover of an arc: the product before times the count of products, plus the product after.
pub fn changeover(plant: PlantFile, arc: usize) -> Changeover
    requires { arc < plant.shape.products * plant.shape.products }
    ensures { let p = plant_in plant.entry in LookedUp p.line (Some (arc / p.products)) (arc % p.products) result }
{
    Changeover {
        minutes: Minutes(plant.changeover_minutes(arc)),
        cents: Cents(plant.changeover_cents(arc)),
    }
}

// The changeover from what is mounted to a product; from nothing there is none.
pub fn changeover_to(plant: PlantFile, mounted: Option<u8>, product: usize) -> Changeover
    requires { mounted_below plant.shape.products mounted × (product < plant.shape.products) }
    ensures { LookedUp (plant_in plant.entry).line mounted product result }
{
    match mounted {
        None => Changeover {
            minutes: Minutes(0),
            cents: Cents(0),
        },
        Some(q) => {
            let products = plant.shape.products;
            changeover(plant, index2(usize::from(q), products, product, products))
        }
    }
}
