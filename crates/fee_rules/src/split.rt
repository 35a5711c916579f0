//! How fees are split between the collector and what is burned.
ghost use Rattle.std.specs.Prelude.{◌≡◌, ◌+◌, ◌<◌, ◌^◌};
ghost use Rattle.fee_rules.specs.Fees.{split_of};

/// Where the fees of a block go, in lamports.
#[derive(Clone, Copy, PartialEq, Eq)]
pub struct FeeSplit {
    /// Taken out of the supply.
    pub burned: u64,
    /// Left for the collector.
    pub rest: u64,
}

/// Half of the base fees of a block is burned (Solana; rounded down, the project's own).
pub fn split_fees(base: u64, priority: u64) -> FeeSplit
    requires { base + priority < 2 ^ 64 }
    ensures { result ≡ split_of base priority }
{
    let burned = base / 2;
    FeeSplit {
        burned,
        rest: base - burned + priority,
    }
}
