//! Which packets have a spelling: each field fits its bits, and the whole its Length.
ghost use Rattle.std.specs.Prelude.{◌↔◌, ◌≤◌, IsTrue, length};
ghost use Rattle.chdr_packets.specs.Fits.{FitsBody, FitsPacket};
ghost use Rattle.chdr_packets.specs.Length.{length_of};

use crate::length::time_bytes;
use crate::packet::{Body, Packet};
use chdr_words::op_count;

fn fits_body(body: &Body) -> bool
    ensures { IsTrue result ↔ FitsBody body.now }
{
    match body {
        Body::Samples { .. } => true,
        Body::Status(status) => status.fits(),
        Body::Command(command) => command.fits(),
        Body::Control(control) => control.fits(),
        Body::Management(management) => management.fits(),
    }
}

/// Whether Length has room for the packet, where each field fits.
fn length_fits(p: &Packet) -> bool
    requires mdata { length p.now.mdata ≤ 31 }
    requires body { FitsBody p.now.body }
    ensures { IsTrue result ↔ (length_of p.now ≤ 65535) }
{
    let room = 65535 - 8 - 8 * p.mdata.len();
    match &p.body {
        Body::Samples { time, payload } => payload.len() <= room - time_bytes(*time),
        Body::Status(_) | Body::Command(_) | Body::Control(_) => true,
        Body::Management(management) => op_count(management.hops.as_slice()) <= (room - 8) / 8,
    }
}

/// Whether the packet has a spelling: each field fits its bits, and the whole its Length.
///
/// Rule: docs/wire-format.md, whose layouts give each field's bits.
pub fn fits(p: &Packet) -> bool
    ensures { IsTrue result ↔ FitsPacket p.now }
{
    p.vc < 64 && p.mdata.len() <= 31 && fits_body(&p.body) && length_fits(p)
}
