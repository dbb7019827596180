//! What holds of layouts and their plans; each law is a function that does nothing and promises it.
ghost use Rattle.run_plans.specs.Laws.{RefusedBlocksDoNot, RefusedPlansDoNot, RefusedStreamsDoNot, UnrefusedPlansBegin};

/// If nothing is refused of a layout's plan, the network can begin it.
pub fn unrefused_plans_begin()
    ensures { UnrefusedPlansBegin }
{}

/// What is refused would leave a plan that no network can begin: each refusal is the contrary of a
/// part of what a run needs.
pub fn refused_plans_do_not_begin()
    ensures runs { RefusedPlansDoNot }
    ensures blocks { RefusedBlocksDoNot }
    ensures streams { RefusedStreamsDoNot }
{}
