//! Route commands: a host of the network writes the entries between two EPIDs.
ghost use Rattle.std.specs.Prelude.{◌≡◌, ◌≢◌, IfOk};
ghost use Rattle.found_nodes.specs.Found.{AreFound};
ghost use Rattle.host_talk.specs.Settled.{IsSettledNow};
ghost use Rattle.rf_script_types.specs.declared.command.ScriptCommand.TheVariants as command;
ghost use Rattle.script_runner.specs.Routes.{IsRoutable, IsRouting, IsWriteCause, nodes_of};
ghost use Rattle.script_runner.specs.ScriptWorlds.{ScriptWorld};
ghost use Rattle.script_runner.specs.Standing.{HasTold, Performs, WorldStandsFor};
ghost use Rattle.script_runner.specs.Talks.{FitsIn};

use crate::talks::{Talk, converse, has_host, name};
use block_registers::RegisterSlots;
use chdr_words::Epid;
use fabric_net::Net;
use net_faults::Faults;
use rf_base::{Copyable, Items, Memory};
use route_writes::{RouteFault, unknown, write_route};
use script_books::{Book, Found, Refusal};
use script_worlds::World;
use std::alloc::Global;

/// A route between two EPIDs that a host writes by what was found, with what it loses.
#[derive(Clone, Copy)]
struct Writing<'a> {
    host: Epid,
    from: Epid,
    to: Epid,
    found: &'a Found,
    lose: &'a Faults,
}

impl Talk for Writing<'_> {
    ghost use Rattle.script_runner.specs.Routes.{IsRoutable, IsRouting};

    ghost Fits = { λ it tree. IsRoutable tree it.found.now.nodes it.from it.to };

    ghost Tells = { λ it. IsRouting it.found.now.nodes it.host it.from it.to it.lose.now };

    fn talk<B: RegisterSlots>(
        &self,
        alloc: Global,
        net: &mut Net,
        banks: &mut B,
    ) -> Result<Book, Memory> {
        write_in(alloc, net, banks, *self)
    }
}

/// Has a host of a world's network write a route by what the last walk of it found, if nothing refuses it.
pub(crate) fn route<B: RegisterSlots>(
    alloc: Global,
    world: &mut World,
    banks: &mut B,
    host: Epid,
    from: Epid,
    to: Epid,
    lose: &Faults,
) -> Result<Book, Memory>
    requires { from ≢ to }
    ensures { IfOk result (λ book. (w : ScriptWorld) → WorldStandsFor world.old (B.slots banks.old) w →
        Performs w (command.Route host from to lose.now) book world.new (B.slots banks.new)) }
{
    let found = last_found(alloc, world)?;
    let writing = Writing {
        host,
        from,
        to,
        found: &found,
        lose,
    };
    converse(alloc, world, banks, &writing)
}

/// What the last walk of a world's network found; nothing if there was none.
fn last_found(alloc: Global, world: &World) -> Result<Found, Memory>
    ensures nodes { IfOk result (λ found. found.nodes ≡ nodes_of world.now.setup.found) }
    ensures sound { IfOk result (λ found. FitsIn world.now.setup.tree (λ tree. AreFound tree found.nodes)) }
{
    match world.found() {
        Some(found) => found.copy(),
        None => Ok(Found {
            nodes: Items::new(alloc),
            bare: 0,
            lost: Items::new(alloc),
        }),
    }
}

fn write_in<B: RegisterSlots>(
    alloc: Global,
    net: &mut Net,
    banks: &mut B,
    it: Writing<'_>,
) -> Result<Book, Memory>
    requires settled { IsSettledNow net.old.present }
    requires fits { IsRoutable net.old.present.tree it.found.now.nodes it.from it.to }
    ensures { IfOk result (λ book. HasTold (IsRouting it.entry.found.now.nodes it.entry.host it.entry.from it.entry.to it.entry.lose.now)
        net.old (B.slots banks.old) book net.new (B.slots banks.new)) }
{
    if let Some(refusal) = refusal_of(net, it) {
        return Ok(Book::Refused(refusal));
    }
    name(net, it.lose)?;
    match write_route(alloc, net, banks, it.host, it.found, it.from, it.to) {
        Ok(count) => Ok(Book::Route(count)),
        Err(RouteFault::Lost { instance }) => Ok(Book::Refused(Refusal::Lost { instance })),
        Err(RouteFault::Unknown { .. }) => unreachable!(),
        Err(RouteFault::Memory) => Err(Memory),
    }
}

/// Why a route isn't begun; none if nothing refuses it.
fn refusal_of(net: &Net, it: Writing<'_>) -> Option<Refusal>
    ensures { IsWriteCause net.now.present.tree it.entry.found.now.nodes it.entry.host it.entry.from it.entry.to result }
{
    if !has_host(net, it.host) {
        return Some(Refusal::NoHost { epid: it.host });
    }
    let epid = unknown(it.found.nodes.as_slice(), it.host, it.from, it.to)?;
    Some(Refusal::Unknown { epid })
}
