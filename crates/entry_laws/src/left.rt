//! What entries leave as it is.
ghost use Rattle.entry_laws.specs.Left.{DroppedEntriesLeaveNothing, EndsPayAndActivate, FailedEntriesPayAlone, UnwrittenKeysStay};

/// A law: a failed entry takes its fee from the account of its payer, which has that many lamports,
/// and leaves all else as it was; a dropped one leaves everything as it was.
pub fn failed_entries_leave_their_fee()
    ensures failed { FailedEntriesPayAlone }
    ensures dropped { DroppedEntriesLeaveNothing }
{}

/// A law: a key that no entry may write has its account while entries run; and at the end of the
/// block, unless it collects the fees, what the loader makes of it, which is another account for a
/// final buffer alone.
pub fn unwritten_keys_stay()
    ensures stays { UnwrittenKeysStay }
{}

/// A law: the end of a block changes no account but the collector's, who has what was collected, and
/// final buffers, of which the loader makes programs.
pub fn block_ends_pay_and_activate()
    ensures ends { EndsPayAndActivate }
{}
