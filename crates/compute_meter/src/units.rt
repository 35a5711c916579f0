//! Taking units.
ghost use Rattle.std.specs.Prelude.{◌≡◌, ◌-◌, nat_lt, if◌then◌else◌};

/// The bytes that cost one unit, where bytes cost units (Solana).
pub const BYTES_OF_UNIT: u64 = 250;

/// The refusals of calls that take units: each has one for units that are spent.
pub trait UnitsFault {
    ghost use Rattle.std.specs.Prelude.{◌≡◌};

    /// The refusal where too few units are left.
    ghost spent: { Self };

    fn units_spent() -> Self
        ensures { result ≡ spent };
}

/// Takes units, or all that are left where they are too few.
pub fn charge<E: UnitsFault>(units: &mut u64, cost: u64) -> Result<(), E>
    ensures left { units.new ≡ units.old - cost }
    ensures answer { result ≡ (if nat_lt units.old cost then Err E.spent else Ok tt) }
{
    if *units < cost {
        *units = 0;
        return Err(E::units_spent());
    }
    *units -= cost;
    Ok(())
}
