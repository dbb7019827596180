//! The command block.
ghost use Rattle.std.specs.Prelude.{◌≡◌, ◌≤◌, IfOk, IfErr, Ok, Err};
ghost use Rattle.rf_script_parts.specs.Value.{IsFault};
ghost use Rattle.rf_script_reader.specs.Block.{kind_word, kind_of, block_fields, packets, time, block};
ghost use Rattle.serde_json.specs.View.{view};

use block_library::BlockKind;
use graph_core::{Side, port_count};
use rf_script_parts::others::only;
use rf_script_parts::scope::{Scope, ends};
use rf_script_parts::value::{bad, listed, number, optional, required};
use rf_script_parts::wrong::Wrong;
use rf_script_types::{
    Field, IN_EPID, KEEP, KindWord, OUT_EPID, PACKETS, SWITCH, ScriptCommand, TIME, TIMES, Why,
};
use serde_json::Value;
use std::alloc::Global;

#[tactic(auto, unfolding(crate::specs::Block::kind_word))]
fn kind_word(command: &Value) -> Result<KindWord, Wrong>
    ensures { result ≡ kind_word (view command.now) }
{
    match required(Field::Kind, Field::Kind, command) {
        Ok(value) => match value.as_str() {
            Some(text) => listed(Field::Kind, KindWord::of_name(text)),
            None => Err(bad(Field::Kind, Why::WrongType)),
        },
        Err(wrong) => Err(wrong),
    }
}

/// The kind of a word, with its number if it has one.
fn kind_of(word: KindWord, command: &Value) -> Result<BlockKind, Wrong>
    ensures { result ≡ kind_of word (view command.now) }
{
    match word {
        KindWord::Tx => Ok(BlockKind::Tx),
        KindWord::Rx => Ok(BlockKind::Rx),
        KindWord::Fifo => Ok(BlockKind::Fifo),
        KindWord::Split => Ok(BlockKind::Split),
        KindWord::Keep => Ok(BlockKind::Keep(number(KEEP, command)? as u16)),
        KindWord::Repeat => Ok(BlockKind::Repeat(number(TIMES, command)? as u16)),
        KindWord::Replay => Ok(BlockKind::Replay(number(TIMES, command)? as u16)),
        KindWord::Switch => Ok(BlockKind::Switch(number(SWITCH, command)? as u16)),
        KindWord::Sink => Ok(BlockKind::Sink),
    }
}

/// The fields of a block of the kind.
fn block_fields(kind: BlockKind) -> &'static [Field]
    ensures { result.now ≡ block_fields kind }
{
    match kind {
        BlockKind::Tx => &[
            Field::Do,
            Field::Kind,
            Field::Outs,
            Field::Packets,
            Field::Time,
        ],
        BlockKind::Rx | BlockKind::Sink => &[Field::Do, Field::Kind, Field::Ins],
        BlockKind::Fifo | BlockKind::Split => &[Field::Do, Field::Kind, Field::Ins, Field::Outs],
        BlockKind::Keep(_) | BlockKind::Repeat(_) | BlockKind::Replay(_) | BlockKind::Switch(_) =>
            &[
                Field::Do,
                Field::Kind,
                Field::Count,
                Field::Ins,
                Field::Outs,
            ],
    }
}

/// How many packets a tx gives, and 0 for every other kind.
fn packets(kind: BlockKind, command: &Value) -> Result<u64, Wrong>
    ensures reads { result ≡ packets kind (view command.now) }
    ensures high { IfOk result (λ n. n ≤ 16384) }
{
    match kind {
        BlockKind::Tx => number(PACKETS, command),
        BlockKind::Rx | BlockKind::Fifo | BlockKind::Split | BlockKind::Sink => Ok(0),
        BlockKind::Keep(_) | BlockKind::Repeat(_) | BlockKind::Replay(_) | BlockKind::Switch(_) =>
            Ok(0),
    }
}

/// The timestamp of a tx's first packet.
fn time(kind: BlockKind, command: &Value) -> Result<Option<u64>, Wrong>
    ensures { result ≡ time kind (view command.now) }
{
    match kind {
        BlockKind::Tx => optional(TIME, command),
        BlockKind::Rx | BlockKind::Fifo | BlockKind::Split | BlockKind::Sink => Ok(None),
        BlockKind::Keep(_) | BlockKind::Repeat(_) | BlockKind::Replay(_) | BlockKind::Switch(_) =>
            Ok(None),
    }
}

#[tactic(auto, unfolding(crate::specs::Block::block))]
pub(crate) fn block(alloc: Global, scope: &Scope, command: &Value) -> Result<ScriptCommand, Wrong>
    ensures ok { IfOk result (λ made. block scope.now (view command.now) ≡ Ok made) }
    ensures err { IfErr result (λ e. IsFault e → block scope.now (view command.now) ≡ Err e) }
{
    let kind = kind_of(kind_word(command)?, command)?;
    let ins = ends(alloc, scope, IN_EPID, port_count(kind, Side::Into), command)?;
    let outs = ends(alloc, scope, OUT_EPID, port_count(kind, Side::Out), command)?;
    let packets = packets(kind, command)?;
    let time = time(kind, command)?;
    only(alloc, block_fields(kind), command)?;
    Ok(ScriptCommand::Block {
        kind,
        ins,
        outs,
        packets: packets as u32,
        time,
    })
}
