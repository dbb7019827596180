//! The laws of both ends; their statements stand in specs/Laws.antt.
ghost use Rattle.endpoint_laws.specs.Laws.{KeptSends, KeptHears, KeptCommands, KeptNumbers, KeptOrders, KeptArrives, KeptTakes, KeptObeys, KeptReports, KeptArrival, KeptStatus, KeptFindsRoom, AnyCallsSend, AnyCallsReceive, StatusSpells, SpelledIsHeard, CommandMeans, RoomIsTested, CreditIsTested, StuckIsTested, OrderIsTested};

/// What is kept of a sending end goes on, and returns, as the whole end does.
pub fn a_kept_sender_does_as_the_whole_one()
    ensures sends { KeptSends }
    ensures hears { KeptHears }
    ensures commands { KeptCommands }
    ensures numbers { KeptNumbers }
    ensures orders { KeptOrders }
{}

/// What is kept of a receiving end goes on, and returns, as the whole end does.
pub fn a_kept_receiver_does_as_the_whole_one()
    ensures arrives { KeptArrives }
    ensures takes { KeptTakes }
    ensures obeys { KeptObeys }
    ensures reports { KeptReports }
    ensures arrival { KeptArrival }
    ensures status { KeptStatus }
    ensures room { KeptFindsRoom }
{}

/// Any list of calls does with wrapped counts what the rules do with whole ones, and returns the same.
pub fn any_calls_do_as_on_whole_counts()
    ensures sending { AnyCallsSend }
    ensures receiving { AnyCallsReceive }
{}

/// What a status or a command spells means the whole counts that were meant.
pub fn what_is_spelled_means_what_was_meant()
    ensures status { StatusSpells }
    ensures heard { SpelledIsHeard }
    ensures command { CommandMeans }
{}

/// Each test of specs/ is true exactly when its condition holds.
pub fn tests_tell_their_conditions()
    ensures room { RoomIsTested }
    ensures credit { CreditIsTested }
    ensures stuck { StuckIsTested }
    ensures order { OrderIsTested }
{}
