//! Fees, in their two parts.
use std::marker::Model;

/// What a transaction pays, in lamports. The sum fits in a u64.
#[derive(Clone, Copy, PartialEq, Eq)]
pub struct Fee {
    /// For its signatures.
    pub base: u64,
    /// For its compute units.
    pub priority: u64,
}

impl Model for Fee {
    ghost use Rattle.std.specs.Prelude.{◌+◌, ◌<◌, ◌^◌};
    ghost use Rattle.fee_rules.specs.Charge.{Charge};

    ghost Value = { Charge };

    ghost view = { λ f. record { base = f.base; priority = f.priority } };

    ghost invariant = { λ f. f.base + f.priority < 2 ^ 64 };

    ghost inverse = { λ c. record { base = c.base; priority = c.priority } };
}
