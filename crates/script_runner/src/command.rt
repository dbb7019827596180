ghost use Rattle.std.specs.Prelude.{ℕ, IfOk};
ghost use Rattle.rf_script_types.specs.Fits.{FitsCommand};
ghost use Rattle.script_runner.specs.ScriptWorlds.{ScriptWorld};
ghost use Rattle.script_runner.specs.Standing.{Performs, WorldStandsFor};

use crate::controls::{Asking, request_of};
use crate::discoveries::discover;
use crate::routes::route;
use crate::runs::run;
use crate::talks::converse;
use block_registers::RegisterSlots;
use net_machine::Seed;
use rf_base::Memory;
use rf_script_types::ScriptCommand;
use script_books::{Book, Refusal};
use script_worlds::World;
use std::alloc::Global;

/// Performs one command on one thread, and returns its book.
///
/// Twins and duplexes aren't performed: their book is `Refused(NotBuilt)`. After `Memory` the world is
/// only good to be dropped. Rule: docs/scripts-and-reports.md.
pub fn run_command_one<B: RegisterSlots>(
    alloc: Global,
    world: &mut World,
    command: &ScriptCommand,
    banks: &mut B,
) -> Result<Book, Memory>
    requires { (version : ℕ) × FitsCommand version command.now }
    ensures { IfOk result (λ book. (w : ScriptWorld) → WorldStandsFor world.old (B.slots banks.old) w →
        Performs w command.now book world.new (B.slots banks.new)) }
{
    if let Some(book) = world.perform(command, banks)? {
        return Ok(book);
    }
    match command {
        ScriptCommand::Discover { host, lose } => discover(alloc, world, banks, *host, lose),
        ScriptCommand::Route {
            host,
            from,
            to,
            lose,
        } => route(alloc, world, banks, *host, *from, *to, lose),
        ScriptCommand::Control {
            host,
            to,
            port,
            op,
            addr,
            words,
            enables,
            lose,
        } => {
            let request = request_of(*host, *port, *op, *addr, words, *enables);
            let asking = Asking {
                dst: *to,
                request: &request,
                lose,
            };
            converse(alloc, world, banks, &asking)
        }
        ScriptCommand::Run { seed, lose, .. } => run(alloc, world, banks, Seed(*seed), lose),
        ScriptCommand::Twin { .. } | ScriptCommand::Duplex { .. } => Ok(Book::Refused(
            Refusal::NotBuilt,
        )),
        ScriptCommand::Net { .. }
        | ScriptCommand::Unload { .. }
        | ScriptCommand::Block { .. }
        | ScriptCommand::Connect { .. }
        | ScriptCommand::Set { .. }
        | ScriptCommand::Commit => unreachable!(),
    }
}
