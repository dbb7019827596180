ghost use Rattle.std.specs.Prelude.{◌≡◌};
ghost use Rattle.net_machine.specs.Passing.{message};

use chdr_packets::{Body, Packet};
use chdr_words::Epid;
use rf_base::Items;
use std::alloc::Global;

/// What this project makes for an EPID on a channel, other than samples.
pub fn message(alloc: Global, vc: u8, dst: Epid, body: Body) -> Packet
    ensures { result ≡ message vc dst body }
{
    Packet {
        vc,
        eob: false,
        eov: false,
        seq: 0,
        dst,
        mdata: Items::new(alloc),
        body,
    }
}
