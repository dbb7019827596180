//! What a command says of its blocks, its ports, its acts and its lines.
ghost use Rattle.std.specs.Prelude.{◌≡◌};
ghost use Rattle.script_books.specs.Commands.{acts_of, epids_of, is_peaked, is_traced, kind_of, port_of};

use block_library::BlockKind;
use chdr_words::Epid;
use graph_core::{PortAt, Side};
use rf_script_types::{Act, ScriptCommand};

/// Of a block command its kind.
pub fn kind_of(command: &ScriptCommand) -> Option<BlockKind>
    ensures { result ≡ kind_of command.now }
{
    match command {
        ScriptCommand::Block { kind, .. } => Some(*kind),
        ScriptCommand::Net { .. }
        | ScriptCommand::Discover { .. }
        | ScriptCommand::Route { .. }
        | ScriptCommand::Control { .. }
        | ScriptCommand::Unload { .. }
        | ScriptCommand::Connect { .. }
        | ScriptCommand::Set { .. }
        | ScriptCommand::Commit
        | ScriptCommand::Run { .. }
        | ScriptCommand::Twin { .. }
        | ScriptCommand::Duplex { .. } => None,
    }
}

/// Of a block command its EPIDs on a side.
pub fn epids_of(command: &ScriptCommand, side: Side) -> &[Epid]
    ensures { result.now ≡ epids_of side command.now }
{
    match command {
        ScriptCommand::Block { ins, outs, .. } => match side {
            Side::Into => ins.as_slice(),
            Side::Out => outs.as_slice(),
        },
        ScriptCommand::Net { .. }
        | ScriptCommand::Discover { .. }
        | ScriptCommand::Route { .. }
        | ScriptCommand::Control { .. }
        | ScriptCommand::Unload { .. }
        | ScriptCommand::Connect { .. }
        | ScriptCommand::Set { .. }
        | ScriptCommand::Commit
        | ScriptCommand::Run { .. }
        | ScriptCommand::Twin { .. }
        | ScriptCommand::Duplex { .. } => &[],
    }
}

/// Of a connect command its port on a side.
pub fn port_of(command: &ScriptCommand, side: Side) -> Option<PortAt>
    ensures { result ≡ port_of side command.now }
{
    match command {
        ScriptCommand::Connect { from, to, .. } => match side {
            Side::Into => Some(*to),
            Side::Out => Some(*from),
        },
        ScriptCommand::Net { .. }
        | ScriptCommand::Discover { .. }
        | ScriptCommand::Route { .. }
        | ScriptCommand::Control { .. }
        | ScriptCommand::Unload { .. }
        | ScriptCommand::Block { .. }
        | ScriptCommand::Set { .. }
        | ScriptCommand::Commit
        | ScriptCommand::Run { .. }
        | ScriptCommand::Twin { .. }
        | ScriptCommand::Duplex { .. } => None,
    }
}

/// Whether the events of the command's run are told.
pub fn is_traced(command: &ScriptCommand) -> bool
    ensures { result ≡ is_traced command.now }
{
    match command {
        ScriptCommand::Run { trace, .. } => *trace,
        ScriptCommand::Net { .. }
        | ScriptCommand::Discover { .. }
        | ScriptCommand::Route { .. }
        | ScriptCommand::Control { .. }
        | ScriptCommand::Unload { .. }
        | ScriptCommand::Block { .. }
        | ScriptCommand::Connect { .. }
        | ScriptCommand::Set { .. }
        | ScriptCommand::Commit
        | ScriptCommand::Twin { .. }
        | ScriptCommand::Duplex { .. } => false,
    }
}

/// Whether the peaks of the command's run are told.
pub fn is_peaked(command: &ScriptCommand) -> bool
    ensures { result ≡ is_peaked command.now }
{
    match command {
        ScriptCommand::Run { peak, .. } => *peak,
        ScriptCommand::Twin { peak, .. } => *peak,
        ScriptCommand::Duplex { peak, .. } => *peak,
        ScriptCommand::Net { .. }
        | ScriptCommand::Discover { .. }
        | ScriptCommand::Route { .. }
        | ScriptCommand::Control { .. }
        | ScriptCommand::Unload { .. }
        | ScriptCommand::Block { .. }
        | ScriptCommand::Connect { .. }
        | ScriptCommand::Set { .. }
        | ScriptCommand::Commit => false,
    }
}

/// Of a duplex its acts.
pub fn acts_of(command: &ScriptCommand) -> &[Act]
    ensures { result.now ≡ acts_of command.now }
{
    match command {
        ScriptCommand::Duplex { acts, .. } => acts.as_slice(),
        ScriptCommand::Net { .. }
        | ScriptCommand::Discover { .. }
        | ScriptCommand::Route { .. }
        | ScriptCommand::Control { .. }
        | ScriptCommand::Unload { .. }
        | ScriptCommand::Block { .. }
        | ScriptCommand::Connect { .. }
        | ScriptCommand::Set { .. }
        | ScriptCommand::Commit
        | ScriptCommand::Run { .. }
        | ScriptCommand::Twin { .. } => &[],
    }
}
