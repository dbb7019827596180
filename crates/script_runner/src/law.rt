//! Each law is a function that does nothing and promises it.
ghost use Rattle.script_runner.specs.Draining.{ScriptsDrain};

/// Where no run of a script names a packet to lose, or each of its streams resynchronises by itself, all streams of all
/// runs are drained at their ends.
pub fn scripts_drain()
    ensures { ScriptsDrain }
{}
