//! The run of a world's streams.
ghost use Rattle.std.specs.Prelude.{Bool, IfOk};
ghost use Rattle.rf_script_types.specs.declared.command.ScriptCommand.TheVariants as command;
ghost use Rattle.script_runner.specs.ScriptWorlds.{ScriptWorld};
ghost use Rattle.script_runner.specs.Standing.{Performs, WorldStandsFor};

use block_registers::RegisterSlots;
use net_faults::Faults;
use net_machine::Seed;
use rf_base::Memory;
use script_books::Book;
use script_worlds::{RunFault, World};
use std::alloc::Global;
use stream_pump::run_one;

/// Runs all streams of a world to their ends, if nothing refuses it.
pub(crate) fn run<B: RegisterSlots>(
    alloc: Global,
    world: &mut World,
    banks: &mut B,
    seed: Seed,
    lose: &Faults,
) -> Result<Book, Memory>
    ensures { IfOk result (λ book. (w : ScriptWorld) (trace peak : Bool) → WorldStandsFor world.old (B.slots banks.old) w →
        Performs w (command.Run seed.0 trace peak lose.now) book world.new (B.slots banks.new)) }
{
    let plan = match world.run_plan(lose) {
        Ok(plan) => plan,
        Err(RunFault::Refused(refusal)) => return Ok(Book::Refused(refusal)),
        Err(RunFault::Memory) => return Err(Memory),
    };
    match world.take_net() {
        Some(mut net) => {
            net.stands();
            let run = run_one(alloc, &mut net, banks, &plan, seed)?;
            world.put_net(net);
            Ok(Book::Run(run))
        }
        None => unreachable!(),
    }
}
