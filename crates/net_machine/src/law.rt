//! What holds of every network; each law is a function that does nothing and promises it.
ghost use Rattle.net_machine.specs.Laws.{AreFront, AreQueues, ChosenIsEnabled, ChosenIsWhole, NothingIsChosen, RunsJoin, ShapeStays, ShapesStay};

/// Each directed link has a queue for each channel, and no two of them share one.
pub fn queues_are_numbered()
    ensures { AreQueues }
{}

/// A place of the front is that of the state, also where there is no such stream or queue.
pub fn a_place_that_is_not_there_is_blank()
    ensures { AreFront }
{}

/// Runs join: a legal run after a legal run is one, and leaves what the second leaves.
pub fn runs_join()
    ensures { RunsJoin }
{}

/// No move changes the tree, the plan, or how many queues, nodes and streams there are.
pub fn shapes_stay()
    ensures one { ShapeStays }
    ensures all { ShapesStay }
{}

/// A choice is enabled, and misses none; so one thread's journal is legal and goes on to its end.
pub fn choices_are_enabled_and_miss_none()
    ensures enabled { ChosenIsEnabled }
    ensures none { NothingIsChosen }
    ensures whole { ChosenIsWhole }
{}
