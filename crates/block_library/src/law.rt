ghost use Rattle.std.specs.Prelude.{ℕ};
ghost use Rattle.block_library.specs.declared.kind.BlockKind.{BlockKind};
ghost use Rattle.block_library.specs.Blocks.{Lists, Extends, block_of, joined};
ghost use Rattle.block_library.specs.Memory.{HistoryGoesOn, KeptStaysFit};
ghost use Rattle.block_library.specs.Producer.{ProducedIsByPlace};
ghost use Rattle.block_library.specs.Lines.{LinesGrow};
ghost use Rattle.block_library.specs.Within.{FedBoundsGiven, AllFedBoundGiven, FewAreGiven, FewAreGivenInAll, WithinIsSmall, WithinIsOfAll, PlansAreWithin};

/// What a block gives for a prefix of its inputs is a prefix of what it gives for the whole.
pub fn blocks_grow_by_prefixes()
    ensures { (kind : BlockKind) (item : ℕ) (fed more : Lists) → Extends (block_of kind item fed)
        (block_of kind item (joined fed more)) }
{}

/// What a block keeps of a history, and gives for it, follows packet by packet.
pub fn a_history_grows_by_packets()
    ensures { HistoryGoesOn }
{}

/// A line counts a list of packets packet by packet, from nothing on.
pub fn lines_grow_by_packets()
    ensures { LinesGrow }
{}

/// What a block gives for a packet fit to be fed is fit to be fed, no longer than the longest packet
/// fed, and with a time only where one was fed; so are the packets of its group.
pub fn fed_packets_bound_given_ones()
    ensures step { FedBoundsGiven }
    ensures all { AllFedBoundGiven }
{}

/// How many packets a block gives, for one packet and for all that were fed.
pub fn given_packets_are_few()
    ensures step { FewAreGiven }
    ensures all { FewAreGivenInAll }
{}

/// What a block keeps stays in its ranges, from the start on.
pub fn what_a_block_keeps_stays_fit()
    ensures { KeptStaysFit }
{}

/// A packet within a bound takes no more bytes on a link than the bound, and has a spelling.
pub fn packets_within_a_bound_are_small()
    ensures small { WithinIsSmall }
    ensures numbered { WithinIsOfAll }
{}

/// A plan gives as many packets as it says, packet k is that of number k, and each is within the
/// plan's samples and time.
pub fn a_plan_gives_its_packets()
    ensures places { ProducedIsByPlace }
    ensures within { PlansAreWithin }
{}
