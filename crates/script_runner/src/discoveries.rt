//! Discover commands: a host of the network finds its nodes.
ghost use Rattle.std.specs.Prelude.{IfOk, None, option_copied};
ghost use Rattle.host_talk.specs.Settled.{IsSettledNow};
ghost use Rattle.rf_script_types.specs.declared.command.ScriptCommand.TheVariants as command;
ghost use Rattle.script_runner.specs.Discoveries.{IsWalked};
ghost use Rattle.script_runner.specs.ScriptWorlds.{ScriptWorld};
ghost use Rattle.script_runner.specs.Standing.{HasTold, Performs, WorldStandsFor};

use crate::talks::{Talk, converse, has_host, name};
use block_registers::RegisterSlots;
use chdr_words::Epid;
use fabric_net::Net;
use net_faults::Faults;
use rf_base::{Copyable, Memory};
use script_books::{Book, Refusal};
use script_worlds::World;
use std::alloc::Global;

/// A walk from a host, with what it loses.
#[derive(Clone, Copy)]
struct Walk<'a> {
    host: Epid,
    lose: &'a Faults,
}

impl Talk for Walk<'_> {
    ghost use Rattle.script_runner.specs.Discoveries.{IsWalked};

    ghost Fits = { λ _ _. Unit {0} };

    ghost Tells = { λ walk. IsWalked walk.host walk.lose.now };

    fn talk<B: RegisterSlots>(
        &self,
        alloc: Global,
        net: &mut Net,
        banks: &mut B,
    ) -> Result<Book, Memory> {
        walk_in(alloc, net, banks, self.host, self.lose)
    }
}

/// Has a host of a world's network find its nodes, if nothing refuses it. The world keeps what was found.
pub(crate) fn discover<B: RegisterSlots>(
    alloc: Global,
    world: &mut World,
    banks: &mut B,
    host: Epid,
    lose: &Faults,
) -> Result<Book, Memory>
    ensures { IfOk result (λ book. (w : ScriptWorld) → WorldStandsFor world.old (B.slots banks.old) w →
        Performs w (command.Discover host lose.now) book world.new (B.slots banks.new)) }
{
    let book = converse(alloc, world, banks, &Walk { host, lose })?;
    if let Book::Discover(found) = &book {
        world.find(found.copy()?);
    }
    Ok(book)
}

fn walk_in<B: RegisterSlots>(
    alloc: Global,
    net: &mut Net,
    banks: &mut B,
    host: Epid,
    lose: &Faults,
) -> Result<Book, Memory>
    requires { IsSettledNow net.old.present }
    ensures { IfOk result (λ book. HasTold (IsWalked host lose.now) net.old (B.slots banks.old) book
        net.new (B.slots banks.new)) }
{
    if !has_host(net, host) {
        return Ok(Book::Refused(Refusal::NoHost { epid: host }));
    }
    name(net, lose)?;
    let found = topology_walk::discover(alloc, net, banks, host)?;
    Ok(Book::Discover(found))
}
