//! The refusals of blocks, streams and runs, as those of a script.
ghost use Rattle.std.specs.Prelude.{◌≡◌};
ghost use Rattle.script_worlds.specs.Causes.{block_refusal, connect_refusal, run_refusal};

use run_plans::{BlockRefusal, ConnectRefusal, RunRefusal};
use script_books::Refusal;

pub(crate) fn of_block(refusal: BlockRefusal) -> Refusal
    ensures { result ≡ block_refusal refusal }
{
    match refusal {
        BlockRefusal::TooManyBlocks => Refusal::TooManyBlocks,
        BlockRefusal::NoEndpoint { epid } => Refusal::NoEndpoint { epid },
        BlockRefusal::EndpointTaken { epid } => Refusal::EndpointTaken { epid },
    }
}

pub(crate) fn of_connect(refusal: ConnectRefusal) -> Refusal
    ensures { result ≡ connect_refusal refusal }
{
    match refusal {
        ConnectRefusal::TooManyStreams => Refusal::TooManyStreams,
        ConnectRefusal::BadPort => Refusal::BadPort,
        ConnectRefusal::PortTaken => Refusal::PortTaken,
        ConnectRefusal::Cycle => Refusal::Cycle,
        ConnectRefusal::Loop { epid } => Refusal::Loop { epid },
    }
}

pub(crate) fn of_run(refusal: RunRefusal) -> Refusal
    ensures { result ≡ run_refusal refusal }
{
    match refusal {
        RunRefusal::OpenPort { block } => Refusal::OpenPort { block },
        RunRefusal::Unrouted { stream } => Refusal::Unrouted { stream },
        RunRefusal::TooBig { stream } => Refusal::TooBig { stream },
        RunRefusal::TooMuch { stream } => Refusal::TooMuch { stream },
    }
}
