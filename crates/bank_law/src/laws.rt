//! The laws of the serial run, the core machine and its histories.
ghost use Rattle.bank_law.specs.Laws.{EveryLegalHistoryIsSound, SomePositionIsReady, OneIsLeastReady, LeastReadyIsOne, NoneLeftIsAllDone, AccountsEndSerial, OutcomesEndSerial, EachJobCanEnd};
ghost use Rattle.bank_law.specs.Laws.{LanesHoldTheirOwn, OwnGrows, OwnOfOthersStays, HoldsByTheLast, GrantsAddOne, EndsTakeOne, FewAreHeld, HistoriesAreShort, ReturnsAreFew, DoneStaysDone, AllDoneIsTheEnd};
ghost use Rattle.bank_law.specs.Laws.{LoansFit, LoansHaveNoMore, SerialRunsHaveNoMore, SerialRunsFit, LamportsMove, UnwrittenStays, StatesRunSerially, SerialStatesAreStates, SumsMove};
ghost use Rattle.bank_law.specs.declared.event.EventKind.TheVariants.{Commit, Return};

/// A law: after each event of a legal list of events, the state agrees with the serial run.
pub fn every_legal_history_is_sound()
    ensures sound { EveryLegalHistoryIsSound }
{}

/// A law: where nothing is held and not all positions are done, some position is ready.
pub fn some_position_is_ready()
    ensures ready { SomePositionIsReady }
{}

/// A law: of the positions that are ready, one is the least.
pub fn one_ready_position_is_the_least()
    ensures some { OneIsLeastReady }
    ensures one { LeastReadyIsOne }
{}

/// A law: where no position is ready and none is held, all are done.
pub fn none_left_is_all_done()
    ensures done { NoneLeftIsAllDone }
{}

/// A law: where all positions are done, every account and every outcome is that of the serial run.
pub fn the_end_is_serial()
    ensures accounts { AccountsEndSerial }
    ensures outcomes { OutcomesEndSerial }
{}

/// A law: each job has a legal list of events that leaves all its positions done.
pub fn each_job_can_end()
    ensures end { EachJobCanEnd }
{}

/// A law: a lane holds exactly what its own last event says.
pub fn lanes_hold_their_own()
    ensures held { LanesHoldTheirOwn }
{}

/// A law: an event is the last of its lane's own, and changes nothing for another lane.
pub fn events_belong_to_their_lanes()
    ensures own { OwnGrows }
    ensures others { OwnOfOthersStays }
    ensures holds { HoldsByTheLast }
{}

/// A law: the number of positions held follows the events.
pub fn the_number_held_follows_the_events()
    ensures grant { GrantsAddOne }
    ensures commit { EndsTakeOne Commit }
    ensures give_back { EndsTakeOne Return }
    ensures few { FewAreHeld }
{}

/// A law: a legal list of events is at most twice as long as there are positions and returns.
pub fn histories_are_short()
    ensures short { HistoriesAreShort }
    ensures returns { ReturnsAreFew }
{}

/// A law: a position that is done stays done, with its outcome.
pub fn done_stays_done()
    ensures done { DoneStaysDone }
{}

/// A law: after all positions are done, no event is legal.
pub fn all_done_is_the_end()
    ensures end { AllDoneIsTheEnd }
{}

/// A law: no loan holds more lamports than the start, or an account that is too long.
pub fn loans_fit()
    ensures fit { LoansFit }
    ensures no_more { LoansHaveNoMore }
{}

/// A law: lamports never grow in the serial run, and its accounts stay within the limit of their
/// data.
pub fn serial_runs_fit()
    ensures no_more { SerialRunsHaveNoMore }
    ensures fit { SerialRunsFit }
{}

/// A law: the serial run changes the sum by what is written less what was lent for writing, and no
/// account that nobody writes.
pub fn the_serial_run_changes_what_is_written()
    ensures lamports { LamportsMove }
    ensures unwritten { UnwrittenStays }
{}

/// A law: the serial run as a finite map has the accounts of the serial run, and is a state with
/// the sum that follows from what was written.
pub fn states_run_serially()
    ensures accounts { StatesRunSerially }
    ensures state { SerialStatesAreStates }
    ensures sum { SumsMove }
{}
