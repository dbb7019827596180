//! What holds of what is set up; each law is a function that does nothing and promises it.
ghost use Rattle.script_worlds.specs.Laws.{AlikePlanTheSame, NextIsOne};

/// What is set up after a command follows from what was set up, the command and its book, up to the order of the
/// committed values; and that order doesn't change the plan of a run.
pub fn next_setups_follow()
    ensures one { NextIsOne }
    ensures plans { AlikePlanTheSame }
{}
