ghost use Rattle.block_registers.specs.Operations.{WritesAreFolded};
ghost use Rattle.block_registers.specs.Slots.{EachSlotSeesItsOwn, AnswersGoOn};

/// Requests leave the words that their accepted writes leave, one after another, and the masks.
pub fn requests_leave_their_writes()
    ensures { WritesAreFolded }
{}

/// Of requests to slots each bank sees those to its own slot, in order.
pub fn each_slot_sees_its_own_requests()
    ensures { EachSlotSeesItsOwn }
{}

/// Later requests are answered by what the earlier ones leave.
pub fn later_answers_follow_earlier_requests()
    ensures { AnswersGoOn }
{}
