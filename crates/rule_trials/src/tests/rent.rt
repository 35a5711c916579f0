//! The published minimums, and the moves that a payer's balance may make.
use rent_rules::{RentState, may_move, minimum, rent_state};

/// Lengths and minimums as Solana publishes them: an account without data, a token account, the
/// longest account.
const MINIMUMS: [(u64, u64); 3] = [(0, 890_880), (165, 2_039_280), (10_485_760, 72_981_780_480)];

/// Whether an account of this length needs these lamports, and is exempt with them.
fn is_minimum(len: u64, lamports: u64) -> bool {
    len <= 10_485_760 && minimum(len) == lamports && rent_state(lamports, len) == RentState::Exempt
}

#[test]
fn minimums(rt: HostRuntime) {
    for (len, lamports) in MINIMUMS {
        assert!(rt; is_minimum(len, lamports));
    }
}

/// What may be left of 1,005,001 lamports in an account without data.
const LEFT: [(u64, bool); 4] = [(0, true), (1, false), (890_879, false), (890_880, true)];

#[test]
fn payers(rt: HostRuntime) {
    let before = rent_state(1_005_001, 0);
    for (left, may) in LEFT {
        assert!(rt; may_move(&before, &rent_state(left, 0)) == may);
    }
}
