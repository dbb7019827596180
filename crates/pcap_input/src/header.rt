//! The file's header.
ghost use Rattle.std.specs.Prelude.{◌≡◌, ◌≤◌, ◌<◌, length, Ok, None, IfOk, IfSome};
ghost use Rattle.pcap_input.specs.Header.{header_read, header_size, is_magic, order_of};

use crate::bytes::{half_at, number_at};
use crate::item::PcapReason;

/// Which byte of a header number stands first.
#[derive(Clone, Copy, Debug, PartialEq, Eq)]
pub enum Order {
    /// The lowest.
    Little,
    /// The highest.
    Big,
}

/// Bytes of the file's header.
pub const HEADER: usize = 24;

/// Microseconds.
const MAGIC: u32 = 0xa1b2_c3d4;

/// Nanoseconds.
const NANO_MAGIC: u32 = 0xa1b2_3c4d;

/// The major version.
const MAJOR: u16 = 2;

/// Ethernet, in the low 16 bits of the link type.
const ETHERNET: u32 = 1;

fn is_magic(number: u32) -> bool
    ensures { result ≡ is_magic number }
{
    number == MAGIC || number == NANO_MAGIC
}

fn order_of(b: &[u8]) -> Option<Order>
    ensures { result ≡ order_of b.now }
{
    if is_magic(number_at(Order::Little, b, 0)) {
        Some(Order::Little)
    } else if is_magic(number_at(Order::Big, b, 0)) {
        Some(Order::Big)
    } else {
        None
    }
}

#[tactic(auto, unfolding(crate::specs::Header::header_read))]
/// The byte order that the header at the front fixes; `None` if the header isn't whole.
pub fn read_header(b: &[u8]) -> Result<Option<Order>, PcapReason>
    ensures reads { result ≡ header_read b.now }
    ensures few { result ≡ Ok None → length b.now < header_size }
    ensures whole { IfOk result (λ found. IfSome found (λ _. header_size ≤ length b.now)) }
{
    if b.len() < HEADER {
        return Ok(None);
    }
    let order = match order_of(b) {
        Some(order) => order,
        None => return Err(PcapReason::BadMagic),
    };
    if half_at(order, b, 4) != MAJOR {
        return Err(PcapReason::BadVersion);
    }
    if number_at(order, b, 20) % (1 << 16) != ETHERNET {
        return Err(PcapReason::BadLink);
    }
    Ok(Some(order))
}
