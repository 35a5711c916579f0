//! Laws of the graph.
ghost use Rattle.prio_graph.specs.Laws.{CountersTell, EdgesAreSingle, ReadyAreCounted, ReadyInTheMachine};

/// The law of the chained graph: a position's counter is 0 exactly where every earlier conflicting
/// position is done.
pub fn counters_tell()
    ensures counters { CountersTell }
{}

/// A law: there is at most one edge between two positions, however many keys they share.
pub fn edges_are_single()
    ensures single { EdgesAreSingle }
{}

/// A law: the positions that are counted as ready are those that are.
pub fn ready_are_counted()
    ensures ready { ReadyAreCounted }
{}

/// A law: a position is ready in the graph exactly where it is ready in the core machine.
pub fn ready_in_the_machine()
    ensures ready { ReadyInTheMachine }
{}
