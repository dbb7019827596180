//! The laws of words and payloads, for the crates above: each is the contract of a function that
//! does nothing.
ghost use Rattle.chdr_words.specs.Laws.{CommandRead, CommandUnique, ControlRead, ControlReads, ControlSpelled, ControlUnique, FirstEach, FrontIsBytes, LengthEach, ManagementRead, ManagementReads, ManagementSpelled, ManagementUnique, MoreEach, NoneEach, StatusRead, StatusUnique, WordAtFront, WordBelow, WordsAtFront, WordsWhole, WordsWritten};

/// Words among bytes don't depend on what follows them, and words that were written are read back.
pub fn words_are_read_as_written()
    ensures below { WordBelow }
    ensures front { WordAtFront }
    ensures fronts { WordsAtFront }
    ensures written { WordsWritten }
    ensures whole { WordsWhole }
    ensures bytes { FrontIsBytes }
{}

/// What is read place by place, from either end.
pub fn places_are_read_in_turn()
    ensures none { NoneEach }
    ensures more { MoreEach }
    ensures first { FirstEach }
    ensures len { LengthEach }
{}

/// A payload of 32 bytes spells one status.
pub fn statuses_are_read_as_spelled()
    ensures read { StatusRead }
    ensures unique { StatusUnique }
{}

/// A payload of 16 bytes spells one command.
pub fn commands_are_read_as_spelled()
    ensures read { CommandRead }
    ensures unique { CommandUnique }
{}

/// A payload of one of the two sizes spells one control request or acknowledgement, and one that
/// fits has a canonical spelling.
pub fn controls_are_read_as_spelled()
    ensures sized { ControlRead }
    ensures read { ControlReads }
    ensures unique { ControlUnique }
    ensures spelled { ControlSpelled }
{}

/// A payload of whole hops spells one management payload, and one that fits has a canonical
/// spelling.
pub fn managements_are_read_as_spelled()
    ensures formed { ManagementRead }
    ensures read { ManagementReads }
    ensures unique { ManagementUnique }
    ensures spelled { ManagementSpelled }
{}
