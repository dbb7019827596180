//! The commands that let no event happen, as a script has them.
ghost use Rattle.std.specs.Prelude.{◌≡◌, ℕ, IfOk, MatchOption};
ghost use Rattle.rf_script_types.specs.Fits.{FitsCommand};
ghost use Rattle.script_worlds.specs.Quiet.{IsPassed, IsPerformed};
ghost use Rattle.script_worlds.specs.Worlds.{block_of, plan_of};

use crate::World;
use crate::commands::unload;
use block_library::BlockKind;
use block_registers::RegisterSlots;
use chdr_words::EpidList;
use net_topology::{LinkList, NodeList, Plan};
use rf_base::{Copyable, Memory};
use rf_script_types::ScriptCommand;
use run_plans::{PlacedBlock, Terms};
use script_books::Book;

/// The network of a net command.
fn plan_of(nodes: &NodeList, links: &LinkList, room: u32, limit: u32) -> Result<Plan, Memory>
    ensures { IfOk result (λ plan. plan ≡ plan_of nodes.now links.now room limit) }
{
    Ok(Plan {
        nodes: nodes.copy()?,
        links: links.copy()?,
        room,
        limit,
    })
}

/// The block of a block command.
fn block_of(
    kind: BlockKind,
    ins: &EpidList,
    outs: &EpidList,
    packets: u32,
    time: Option<u64>,
) -> Result<PlacedBlock, Memory>
    ensures { IfOk result (λ block. block ≡ block_of kind ins.now outs.now packets time) }
{
    Ok(PlacedBlock {
        kind,
        ins: ins.copy()?,
        outs: outs.copy()?,
        packets,
        time,
    })
}

impl World {
    /// Performs a command that lets no event happen; none for every other command, which isn't begun.
    pub fn perform<B: RegisterSlots>(
        &mut self,
        command: &ScriptCommand,
        banks: &mut B,
    ) -> Result<Option<Book>, Memory>
        requires { (version : ℕ) × FitsCommand version command.now }
        ensures { IfOk result (λ told. MatchOption told
            (IsPassed command.now self.old self.new (B.slots banks.old) (B.slots banks.new))
            (IsPerformed command.now self.old self.new (B.slots banks.old) (B.slots banks.new))) }
    {
        match command {
            ScriptCommand::Net {
                nodes,
                links,
                room,
                routed,
                limit,
            } => {
                let plan = plan_of(nodes, links, *room, *limit)?;
                Ok(Some(self.net(&plan, *routed)?))
            }
            ScriptCommand::Unload { port } => Ok(Some(unload(*port, banks))),
            ScriptCommand::Block {
                kind,
                ins,
                outs,
                packets,
                time,
            } => {
                let block = block_of(*kind, ins, outs, *packets, *time)?;
                Ok(Some(self.block(block)?))
            }
            ScriptCommand::Connect {
                from,
                to,
                flow,
                start,
                policy,
            } => {
                let (flow, start, policy) = (*flow, *start, *policy);
                let terms = Terms {
                    flow,
                    start,
                    policy,
                };
                Ok(Some(self.connect(*from, *to, terms)?))
            }
            ScriptCommand::Set { at, value } => Ok(Some(self.set(*at, *value)?)),
            ScriptCommand::Commit => Ok(Some(self.commit()?)),
            ScriptCommand::Discover { .. }
            | ScriptCommand::Route { .. }
            | ScriptCommand::Control { .. }
            | ScriptCommand::Run { .. }
            | ScriptCommand::Twin { .. }
            | ScriptCommand::Duplex { .. } => Ok(None),
        }
    }
}
