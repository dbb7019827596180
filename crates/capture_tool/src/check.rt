ghost use Rattle.std.specs.Prelude.{◌≡◌, ◌⊎◌, ◌≤◌, IfOk, IfSome};
ghost use Rattle.std.specs.Io.KnownBytes.{IsAtEnd};
ghost use Rattle.rf_outside.specs.Bytes.{AddsPrefix};
ghost use Rattle.rf_outside.specs.Causes.{Rose};
ghost use Rattle.capture_tool.specs.Outcome.{Told};
ghost use Rattle.capture_tool.specs.Text.{check_text, checked};

use crate::packets::{LIMIT, count_packets, last_fault, long_fault, progress_of};
use crate::seen::{Counts, Seen, status_of};
use crate::text::put_check;
use chdr_stream::Decoder;
use rf_base::Memory;
use rf_outside::{PieceReader, Progress, Sink, Source, Stop, Text, read_pieces, write_all};
use std::alloc::Global;
use std::marker::Model;

/// Counts the packets of a capture.
#[derive(Drop)]
struct Counter {
    decoder: Decoder,
    counts: Counts,
    room: usize,
}

impl Model for Counter {
    ghost use Rattle.std.specs.Prelude.{◌≤◌};
    ghost use Rattle.capture_tool.specs.Follows.{Checked, IsWithin};

    ghost Value = { Checked };

    ghost view = { λ c. record { decoder = c.decoder; counts = c.counts; room = c.room } };

    ghost invariant = { λ c. IsWithin c.decoder c.counts.packets c.room
        × (c.counts.canonical ≤ c.counts.packets) };
}

impl Counter {
    ghost use Rattle.std.specs.Prelude.{◌≡◌};
    ghost use Rattle.chdr_stream.specs.Calls.{opened};
    ghost use Rattle.capture_tool.specs.Seen.{limit};

    fn new(alloc: Global) -> Counter
        ensures { result ≡ record {
          decoder = opened;
          counts = record { packets = 0; canonical = 0 };
          room = limit;
        } }
    {
        Counter {
            decoder: Decoder::new(alloc),
            counts: Counts {
                packets: 0,
                canonical: 0,
            },
            room: LIMIT,
        }
    }
}

impl PieceReader for Counter {
    ghost use Rattle.std.specs.Prelude.{[], IsSome};
    ghost use Rattle.capture_tool.specs.Follows.{seen_after};

    type Seen = Seen;

    ghost text = { λ _ _. [] };

    ghost seen = { λ s more. seen_after s more };

    ghost room = { λ s. s.room };

    ghost IsEarly = { λ seen. IsSome seen.fault };

    fn read(&mut self, piece: &[u8], _page: &mut Text) -> Result<Progress, Memory> {
        self.decoder.feed(piece)?;
        self.room -= piece.len();
        let fault = count_packets(&mut self.decoder, &mut self.counts);
        Ok(progress_of(fault))
    }

    fn end(mut self, _page: &mut Text) -> Result<Seen, Memory> {
        let stands = count_packets(&mut self.decoder, &mut self.counts);
        Ok(Seen {
            counts: self.counts,
            fault: last_fault(stands, &self.decoder),
        })
    }

    fn pass_limit(mut self, _page: &mut Text) -> Result<Seen, Memory> {
        let stands = count_packets(&mut self.decoder, &mut self.counts);
        Ok(Seen {
            counts: self.counts,
            fault: Some(long_fault(stands)),
        })
    }
}

fn check_line(alloc: Global, seen: &Seen) -> Result<Text, Memory>
    ensures { IfOk result (λ text. text ≡ check_text seen.now.counts seen.now.fault) }
{
    let mut text = Text::new(alloc);
    put_check(&mut text, seen.counts, seen.fault)?;
    Ok(text)
}

/// Counts the packets of a capture and the canonical ones, and writes one line.
///
/// The status is 0, or 7 at a fault; 3 if a read failed, 4 if a write did, 5 if memory ran out.
///
/// Rule: docs/scripts-and-reports.md, "Listing and check".
pub fn check_capture<S: Source, K: Sink>(alloc: Global, src: &mut S, out: &mut K) -> u8
    ensures statuses { (result ≡ 0) ⊎ (result ≡ 3) ⊎ (result ≡ 4) ⊎ (result ≡ 5) ⊎ (result ≡ 7) }
    ensures told { (result ≡ 0) ⊎ (result ≡ 7) → IfSome (S.left src.old) (λ bytes.
        Told checked bytes result (K.written out.old) (K.written out.new)) }
    ensures ended { result ≡ 0 → IsAtEnd (S.left src.new) }
    ensures read { result ≡ 3 → Rose (S.faults src.old) (S.faults src.new) }
    ensures write { result ≡ 4 → Rose (K.faults out.old) (K.faults out.new) }
    ensures untouched { (result ≡ 3) ⊎ (result ≡ 5) → K.written out.new ≡ K.written out.old }
    ensures prefix { result ≡ 4 → IfSome (S.left src.old) (λ bytes.
        AddsPrefix (K.written out.old) (K.written out.new) (checked bytes)) }
    ensures later { (S.faults src.old ≤ S.faults src.new) × (K.faults out.old ≤ K.faults out.new) }
{
    let seen = match read_pieces(alloc, src, out, Counter::new(alloc), LIMIT) {
        Ok(seen) => seen,
        Err(Stop::Read) => return 3,
        Err(Stop::Write) => return 4,
        Err(Stop::Memory) => return 5,
    };
    let text = match check_line(alloc, &seen) {
        Ok(text) => text,
        Err(Memory) => return 5,
    };
    match write_all(out, text.as_bytes()) {
        Ok(()) => status_of(seen.fault),
        Err(_) => 4,
    }
}
