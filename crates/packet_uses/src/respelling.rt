ghost use Rattle.packet_uses.specs.Respelled.{Respells};

use chdr_packets::{PacketFault, decode, encode};
use chdr_words::Bytes;
use std::alloc::Global;

/// The canonical spelling of the packet at the front of bytes; `None` if bytes are missing.
///
/// Rule: docs/wire-format.md, "Packets".
pub fn respell(alloc: Global, bytes: &[u8]) -> Result<Option<Bytes>, PacketFault>
    ensures { Respells bytes.now result }
{
    match decode(alloc, bytes) {
        Ok(Some((packet, _))) => Ok(Some(encode(alloc, &packet)?)),
        Ok(None) => Ok(None),
        Err(fault) => Err(fault),
    }
}
