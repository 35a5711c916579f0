//! The rent of accounts, and the moves that it allows.
ghost use Rattle.std.specs.Prelude.{◌≡◌, ◌↔◌, ◌≤◌, IsTrue};
ghost use Rattle.sol_base.specs.declared.account.Account.{Account};
ghost use Rattle.sol_base.specs.Accounts.{max_data_len};
ghost use Rattle.rent_rules.specs.Rent.{minimum_of, rent_state_of, rent_of, moves, MayMove};

/// The bytes that an account takes beside its data (Solana).
pub(crate) const ACCOUNT_OVERHEAD: u64 = 128;

/// What storing one byte for a year costs, in lamports (Solana).
pub const LAMPORTS_PER_BYTE_YEAR: u64 = 3_480;

/// The years whose rent exempts an account (Solana).
pub const EXEMPTION_YEARS: u64 = 2;

/// How an account is seen by rent. A paying account is known by its balance in lamports and the
/// number of its data bytes.
#[derive(Clone, Copy, PartialEq, Eq)]
pub enum RentState {
    Empty,
    Exempt,
    Paying { lamports: u64, len: u64 },
}

/// The least balance, in lamports, that exempts an account with `len` data bytes (Solana).
pub fn minimum(len: u64) -> u64
    requires { len ≤ max_data_len }
    ensures { result ≡ minimum_of len }
{
    (ACCOUNT_OVERHEAD + len) * LAMPORTS_PER_BYTE_YEAR * EXEMPTION_YEARS
}

/// The rent state of an account with that balance and that many data bytes (Solana).
pub fn rent_state(lamports: u64, len: u64) -> RentState
    requires { len ≤ max_data_len }
    ensures { result ≡ rent_state_of lamports len }
{
    if lamports == 0 {
        RentState::Empty
    } else if lamports >= minimum(len) {
        RentState::Exempt
    } else {
        RentState::Paying { lamports, len }
    }
}

/// Whether an account may go from the one state to the other (Solana).
pub fn may_move(before: &RentState, after: &RentState) -> bool
    ensures states { result ≡ moves before.now after.now }
    ensures accounts { (a b : Account) → rent_of a ≡ before.now → rent_of b ≡ after.now →
        (IsTrue result ↔ MayMove a b) }
{
    match (before, after) {
        (_, RentState::Empty | RentState::Exempt) => true,
        (
            RentState::Paying { lamports, len },
            RentState::Paying {
                lamports: lamports_after,
                len: len_after,
            },
        ) => len == len_after && lamports_after <= lamports,
        (RentState::Empty | RentState::Exempt, RentState::Paying { .. }) => false,
    }
}
