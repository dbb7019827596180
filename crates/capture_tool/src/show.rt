ghost use Rattle.std.specs.Prelude.{◌≡◌, ◌⊎◌, ◌≤◌, IfSome};
ghost use Rattle.std.specs.Io.KnownBytes.{IsAtEnd};
ghost use Rattle.rf_outside.specs.Bytes.{AddsPrefix};
ghost use Rattle.rf_outside.specs.Causes.{Rose};
ghost use Rattle.capture_tool.specs.Listing.{listed};
ghost use Rattle.capture_tool.specs.Outcome.{Told};

use crate::packets::{LIMIT, last_fault, list_packets, long_fault, progress_of};
use crate::seen::{Fault, status_of};
use crate::text::put_last;
use chdr_stream::Decoder;
use rf_base::Memory;
use rf_outside::{PieceReader, Progress, Sink, Source, Stop, Text, read_pieces};
use std::alloc::Global;
use std::marker::Model;

/// Lists a capture as it comes.
#[derive(Drop)]
struct Lister {
    decoder: Decoder,
    packets: u64,
    room: usize,
}

impl Model for Lister {
    ghost use Rattle.capture_tool.specs.Follows.{IsWithin, Listed};

    ghost Value = { Listed };

    ghost view = { λ l. record { decoder = l.decoder; packets = l.packets; room = l.room } };

    ghost invariant = { λ l. IsWithin l.decoder l.packets l.room };
}

impl Lister {
    ghost use Rattle.std.specs.Prelude.{◌≡◌};
    ghost use Rattle.chdr_stream.specs.Calls.{opened};
    ghost use Rattle.capture_tool.specs.Seen.{limit};

    fn new(alloc: Global) -> Lister
        ensures { result ≡ record { decoder = opened; packets = 0; room = limit } }
    {
        Lister {
            decoder: Decoder::new(alloc),
            packets: 0,
            room: LIMIT,
        }
    }
}

impl PieceReader for Lister {
    ghost use Rattle.std.specs.Prelude.{IsSome};
    ghost use Rattle.capture_tool.specs.Follows.{fault_after, listed_after};

    type Seen = Option<Fault>;

    ghost text = { λ s more. listed_after s more };

    ghost seen = { λ s more. fault_after s.decoder s.room more };

    ghost room = { λ s. s.room };

    ghost IsEarly = { λ fault. IsSome fault };

    fn read(&mut self, piece: &[u8], page: &mut Text) -> Result<Progress, Memory> {
        self.decoder.feed(piece)?;
        self.room -= piece.len();
        let fault = list_packets(&mut self.decoder, &mut self.packets, page)?;
        Ok(progress_of(fault))
    }

    fn end(mut self, page: &mut Text) -> Result<Option<Fault>, Memory> {
        let stands = list_packets(&mut self.decoder, &mut self.packets, page)?;
        let fault = last_fault(stands, &self.decoder);
        put_last(page, self.packets, fault)?;
        Ok(fault)
    }

    fn pass_limit(mut self, page: &mut Text) -> Result<Option<Fault>, Memory> {
        let stands = list_packets(&mut self.decoder, &mut self.packets, page)?;
        let fault = Some(long_fault(stands));
        put_last(page, self.packets, fault)?;
        Ok(fault)
    }
}

/// Writes a line for each packet of a capture as it is read, and a last line.
///
/// The status is 0, or 7 at a fault; 3 if a read failed, 4 if a write did, 5 if memory ran out.
/// Each piece that is read has its lines written before the next one is asked for.
///
/// Rule: docs/scripts-and-reports.md, "Listing and check".
pub fn show_capture<S: Source, K: Sink>(alloc: Global, src: &mut S, out: &mut K) -> u8
    ensures statuses { (result ≡ 0) ⊎ (result ≡ 3) ⊎ (result ≡ 4) ⊎ (result ≡ 5) ⊎ (result ≡ 7) }
    ensures told { (result ≡ 0) ⊎ (result ≡ 7) → IfSome (S.left src.old) (λ bytes.
        Told listed bytes result (K.written out.old) (K.written out.new)) }
    ensures ended { result ≡ 0 → IsAtEnd (S.left src.new) }
    ensures read { result ≡ 3 → Rose (S.faults src.old) (S.faults src.new) }
    ensures write { result ≡ 4 → Rose (K.faults out.old) (K.faults out.new) }
    ensures prefix { (result ≡ 3) ⊎ (result ≡ 4) ⊎ (result ≡ 5) → IfSome (S.left src.old) (λ bytes.
        AddsPrefix (K.written out.old) (K.written out.new) (listed bytes)) }
    ensures later { (S.faults src.old ≤ S.faults src.new) × (K.faults out.old ≤ K.faults out.new) }
{
    match read_pieces(alloc, src, out, Lister::new(alloc), LIMIT) {
        Ok(fault) => status_of(fault),
        Err(Stop::Read) => 3,
        Err(Stop::Write) => 4,
        Err(Stop::Memory) => 5,
    }
}
