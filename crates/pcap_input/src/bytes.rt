//! Numbers of one, two and four bytes; a byte that isn't there reads as 0.
ghost use Rattle.std.specs.Prelude.{◌≡◌, ◌<◌, ◌^◌, slice_index};
ghost use Rattle.pcap_input.specs.Header.{half_at, number_at};

use crate::header::Order;

pub fn byte_at(b: &[u8], at: usize) -> u8
    ensures { result ≡ slice_index b.now at }
{
    b.get(at).copied().unwrap_or(0)
}

pub fn half_at(order: Order, b: &[u8], at: usize) -> u16
    requires { at < 2 ^ 32 }
    ensures { result ≡ half_at order b.now at }
{
    let first = byte_at(b, at) as u16;
    let second = byte_at(b, at + 1) as u16;
    match order {
        Order::Little => first + 256 * second,
        Order::Big => 256 * first + second,
    }
}

pub fn number_at(order: Order, b: &[u8], at: usize) -> u32
    requires { at < 2 ^ 31 }
    ensures { result ≡ number_at order b.now at }
{
    let first = half_at(order, b, at) as u32;
    let second = half_at(order, b, at + 2) as u32;
    match order {
        Order::Little => first + 65536 * second,
        Order::Big => 65536 * first + second,
    }
}
