//! Messages that were processed.
ghost use Rattle.entry_laws.specs.Once.{MessagesRunOnce};

/// A law: a message whose entry was not dropped is remembered by the snapshot after its block and by
/// those after the next 149: a transaction with it is refused as AlreadyProcessed, if no earlier
/// cause refuses it, and none runs.
pub fn messages_run_once()
    ensures once { MessagesRunOnce }
{}
