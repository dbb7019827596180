//! The commands of a script, one after another.
ghost use Rattle.std.specs.Prelude.{◌≡◌, ℕ, [], OnErr, OnOk};
ghost use Rattle.rf_script_types.specs.Fits.{Each, FitsCommand};
ghost use Rattle.script_runner.specs.Performed.{IsOneThread, IsOneThreadSoFar};

use crate::command::run_command_one;
use block_registers::RegisterSlots;
use rf_base::Memory;
use rf_script_types::ScriptCommand;
use script_books::BookList;
use script_worlds::World;
use std::alloc::Global;

/// Performs commands in order on one thread, from a world without a network on, and keeps a book of each.
///
/// At `Err` the books are those of the commands before the one that ran out of memory.
pub fn perform_all<B: RegisterSlots>(
    alloc: Global,
    commands: &[ScriptCommand],
    banks: &mut B,
    books: &mut BookList,
) -> Result<(), Memory>
    requires fits { (version : ℕ) × Each (FitsCommand version) commands.now }
    requires empty { books.old ≡ [] }
    ensures done { OnOk result (IsOneThread commands.now books.new (B.slots banks.old) (B.slots banks.new)) }
    ensures begun { OnErr result (IsOneThreadSoFar commands.now books.new) }
{
    let mut world = World::new(alloc);
    for command in commands {
        let book = run_command_one(alloc, &mut world, command, banks)?;
        books.push(book)?;
    }
    Ok(())
}
