//! The figures of a block.
ghost use Rattle.std.specs.Prelude.{◌≡◌, ◌<◌, ◌≤◌, ◌*◌, ◌/◌, ◌^◌, ◌==◌, IfOk, length, if◌then◌else◌};
ghost use Rattle.admission.specs.Admission.{units_of};
ghost use Rattle.block_shape.specs.Shape.{IsShape, hundredths};

use crate::holders::last_holders;
use crate::measure::Measure;
use crate::starts::earliest_starts;
use admission::Chosen;
use sol_base::OutOfMemory;
use std::alloc::Global;

/// How parallel a block can be, where each transaction uses all units that it may.
#[derive(Drop)]
pub struct Shape {
    /// When each starts at the earliest, in units.
    pub starts: Vec<u64>,
    /// Which earlier one holds up each until then, the last of several.
    pub holders: Vec<Option<u32>>,
    /// How many transactions stand on the longest chain of them.
    pub depth: u64,
    /// The units on the longest chain.
    pub longest: u64,
    /// The units of all.
    pub units: u64,
}

/// The units of all.
fn units_of(order: &[Chosen]) -> u64
    requires { length order.now < 2 ^ 32 }
    ensures { result ≡ units_of order.now }
{
    let mut units = 0;
    for chosen in order {
        units += u64::from(chosen.budget.limit);
    }
    units
}

/// The shape of the transactions in their order. It takes time near-linear in their locks.
pub fn shape_of(alloc: Global, order: &[Chosen]) -> Result<Shape, OutOfMemory>
    requires { length order.now < 2 ^ 32 }
    ensures { IfOk result (IsShape order.now) }
{
    let walk = earliest_starts(alloc, order, Measure::Units)?;
    let holders = last_holders(alloc, order, Measure::Units, walk.starts.as_slice())?;
    let chains = earliest_starts(alloc, order, Measure::Transactions)?;
    Ok(Shape {
        starts: walk.starts,
        holders,
        depth: chains.longest,
        longest: walk.longest,
        units: units_of(order),
    })
}

impl Shape {
    /// How many lanes can pay at most, in hundredths: all units over those of the longest chain,
    /// rounded down. It is 0 where there are no units.
    pub fn lanes(&self) -> u128
        ensures { result ≡ hundredths self.now.units self.now.longest }
    {
        if self.longest == 0 {
            return 0;
        }
        u128::from(self.units) * 100 / u128::from(self.longest)
    }
}
