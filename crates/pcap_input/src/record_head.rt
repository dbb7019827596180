//! A record: 16 bytes of header, and its frame.
ghost use Rattle.std.specs.Prelude.{◌≡◌, ◌+◌, ◌≤◌, ◌<◌, length, Ok, None, IfOk, IfSome};
ghost use Rattle.pcap_input.specs.Record.{record_size, size_read};

use crate::bytes::number_at;
use crate::header::Order;
use crate::item::PcapReason;

/// Bytes of a record's header.
pub const RECORD: usize = 16;

/// The most bytes of a frame that a record stores.
const MOST: u32 = 262_144;

#[tactic(auto, unfolding(crate::specs::Record::size_read))]
/// How many bytes the frame of the record at the front has; `None` if the record isn't whole.
pub fn read_size(order: Order, b: &[u8]) -> Result<Option<usize>, PcapReason>
    ensures reads { result ≡ size_read order b.now }
    ensures few { result ≡ Ok None → length b.now < 262160 }
    ensures whole { IfOk result (λ found. IfSome found (λ size. record_size + size ≤ length b.now)) }
{
    if b.len() < RECORD {
        return Ok(None);
    }
    let size = number_at(order, b, 8);
    if size > MOST {
        return Err(PcapReason::BadRecord);
    }
    if b.len() - RECORD < size as usize {
        return Ok(None);
    }
    Ok(Some(size as usize))
}
