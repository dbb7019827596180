//! Reading a source piece by piece, and writing what is made of it as it comes.
ghost use Rattle.std.specs.Prelude.{◌≡◌, ◌≢◌, ◌⊎◌, ◌+◌, ◌<◌, ◌≤◌, [], List, ℕ, Ok, Err, length, take, IfOk, IfSome, OnOk, OnErr};
ghost use Rattle.std.specs.Io.KnownBytes.{Consumes, IsAtEnd};
ghost use Rattle.rf_outside.specs.Bytes.{Adds, AddsPrefix};
ghost use Rattle.rf_outside.specs.Causes.{Rose};
ghost use Rattle.rf_outside.specs.Pieces.{Ends, IsSettled, ReadsOn, Tells};

use crate::{Sink, Source, Text, write_all};
use rf_base::Memory;
use std::alloc::Global;
use thiserror::Error;

/// At most this number of bytes is read at once.
pub const PIECE: usize = 1 << 16;

/// Whether a reader wants more bytes.
#[derive(Clone, Copy, Debug, PartialEq, Eq)]
pub enum Progress {
    GoesOn,
    /// Nothing that follows changes what it puts or sees.
    Stops,
}

/// Why a source wasn't read to its end, or its text not written.
#[derive(Clone, Copy, Debug, PartialEq, Eq, Error)]
pub enum Stop {
    #[error("a read failed")]
    Read,
    #[error("a write failed")]
    Write,
    #[error("out of memory")]
    Memory,
}

impl From<Memory> for Stop {
    ghost use Rattle.rf_outside.specs.declared.pieces.Stop.TheVariants as stops;

    ghost from_gives = { λ _ e. e ≡ stops.Memory };

    fn from(_: Memory) -> Stop {
        Stop::Memory
    }
}

/// What is made of bytes that come in pieces: a text, put as they come, and what is seen in the end.
///
/// Its meanings speak of the bytes that are still to come, so nothing depends on how they are cut.
pub trait PieceReader: Drop {
    type Seen: Drop;

    /// The text that it still puts, if exactly these bytes are to come.
    ghost text: { Self → List ℕ → List ℕ };

    /// What it sees in the end, if exactly these bytes are to come.
    ghost seen: { Self → List ℕ → Self.Seen };

    /// How many bytes it still takes.
    ghost room: { Self → ℕ };

    /// This may be seen before the bytes are at their end.
    ghost IsEarly: { Self.Seen → Type 0 };

    /// Reads a piece, and puts the text that it has then. If memory runs out, that text is of no use.
    fn read(&mut self, piece: &[u8], page: &mut Text) -> Result<Progress, Memory>
        requires { length piece.now ≤ room self.old }
        ensures on { OnOk result (ReadsOn (text self.old) (text self.new)
            (seen self.old) (seen self.new) piece.now page.old page.new) }
        ensures room { OnOk result (room self.old ≡ room self.new + length piece.now) }
        ensures settled { result ≡ Ok Progress.Stops →
            IsSettled (text self.new) (seen self.new) × IsEarly (seen self.new []) };

    /// No bytes are to come: puts the last text.
    fn end(self, page: &mut Text) -> Result<Self::Seen, Memory>
        ensures { IfOk result (λ found.
            Ends (text self) (seen self) [] page.old page.new found) };

    /// More bytes are to come than it takes: puts the last text.
    fn pass_limit(self, page: &mut Text) -> Result<Self::Seen, Memory>
        requires { room self ≡ 0 }
        ensures ends { IfOk result (λ found. (more : List ℕ) → 0 < length more →
            Ends (text self) (seen self) more page.old page.new found) }
        ensures early { IfOk result (λ found. IsEarly found) };
}

/// The next bytes of the source, at most `most`.
fn next_piece<S: Source>(src: &mut S, piece: &mut [u8; PIECE], most: usize) -> Result<usize, Stop>
    requires some { 0 < most }
    requires room { most ≤ PIECE }
    ensures bytes { IfOk result (λ n.
        Consumes (S.left src.old) (S.left src.new) (take n piece.new)) }
    ensures bound { IfOk result (λ n. n ≤ most) }
    ensures end { IfOk result (λ n. n ≡ 0 → IsAtEnd (S.left src.new)) }
    ensures failed { result ≡ Err Stop.Read → Rose (S.faults src.old) (S.faults src.new) }
    ensures only { (result ≢ Err Stop.Write) × (result ≢ Err Stop.Memory) }
    ensures later { S.faults src.old ≤ S.faults src.new }
{
    match src.read(&mut piece[..most]) {
        Ok(count) => Ok(count),
        Err(_) => Err(Stop::Read),
    }
}

/// Writes the text, and empties it; without any it calls nothing.
fn write_text<K: Sink>(out: &mut K, page: &mut Text) -> Result<(), Stop>
    ensures whole { OnOk result (Adds (K.written out.old) (K.written out.new) page.old) }
    ensures empty { OnOk result (page.new ≡ []) }
    ensures prefix { OnErr result (AddsPrefix (K.written out.old) (K.written out.new) page.old) }
    ensures silent { page.old ≡ [] → K.written out.new ≡ K.written out.old }
    ensures only { (result ≢ Err Stop.Read) × (result ≢ Err Stop.Memory) }
    ensures fault { OnErr result (Rose (K.faults out.old) (K.faults out.new)) }
    ensures later { K.faults out.old ≤ K.faults out.new }
{
    if page.as_bytes().is_empty() {
        return Ok(());
    }
    match write_all(out, page.as_bytes()) {
        Ok(()) => {
            page.clear();
            Ok(())
        }
        Err(_) => Err(Stop::Write),
    }
}

fn end_reader<K: Sink, R: PieceReader>(
    reader: R,
    mut page: Text,
    out: &mut K,
) -> Result<R::Seen, Stop>
    requires { page ≡ [] }
    ensures told { IfOk result (λ found. Tells (K.written out.old) (K.written out.new)
        (R.text reader []) (R.seen reader []) found) }
    ensures prefix { OnErr result
        (AddsPrefix (K.written out.old) (K.written out.new) (R.text reader [])) }
    ensures silent { R.text reader [] ≡ [] → K.written out.new ≡ K.written out.old }
    ensures only { result ≢ Err Stop.Read }
    ensures fault { result ≡ Err Stop.Write → Rose (K.faults out.old) (K.faults out.new) }
    ensures later { K.faults out.old ≤ K.faults out.new }
{
    let found = reader.end(&mut page)?;
    write_text(out, &mut page)?;
    Ok(found)
}

fn pass_reader_limit<K: Sink, R: PieceReader>(
    reader: R,
    mut page: Text,
    out: &mut K,
) -> Result<R::Seen, Stop>
    requires empty { page ≡ [] }
    requires full { R.room reader ≡ 0 }
    ensures told { IfOk result (λ found. (more : List ℕ) → 0 < length more →
        Tells (K.written out.old) (K.written out.new) (R.text reader more) (R.seen reader more) found) }
    ensures prefix { OnErr result ((more : List ℕ) → 0 < length more →
        AddsPrefix (K.written out.old) (K.written out.new) (R.text reader more)) }
    ensures silent { ((more : List ℕ) → R.text reader more ≡ []) →
        K.written out.new ≡ K.written out.old }
    ensures early { IfOk result (λ found. R.IsEarly found) }
    ensures only { result ≢ Err Stop.Read }
    ensures fault { result ≡ Err Stop.Write → Rose (K.faults out.old) (K.faults out.new) }
    ensures later { K.faults out.old ≤ K.faults out.new }
{
    let found = reader.pass_limit(&mut page)?;
    write_text(out, &mut page)?;
    Ok(found)
}

/// Reads a source piece by piece, and writes the reader's text for each as it comes.
///
/// It ends at the source's end, when the reader stops, or when more than `limit` bytes came.
pub fn read_pieces<S: Source, K: Sink, R: PieceReader>(
    alloc: Global,
    src: &mut S,
    out: &mut K,
    mut reader: R,
    limit: usize,
) -> Result<R::Seen, Stop>
    requires { R.room reader ≡ limit }
    ensures told { IfOk result (λ found. IfSome (S.left src.old) (λ bytes.
        Tells (K.written out.old) (K.written out.new)
        (R.text reader bytes) (R.seen reader bytes) found)) }
    ensures ended { IfOk result (λ found. IsAtEnd (S.left src.new) ⊎ R.IsEarly found) }
    ensures prefix { OnErr result (IfSome (S.left src.old) (λ bytes.
        AddsPrefix (K.written out.old) (K.written out.new) (R.text reader bytes))) }
    ensures silent { ((more : List ℕ) → R.text reader more ≡ []) →
        K.written out.new ≡ K.written out.old }
    ensures read { result ≡ Err Stop.Read → Rose (S.faults src.old) (S.faults src.new) }
    ensures write { result ≡ Err Stop.Write → Rose (K.faults out.old) (K.faults out.new) }
    ensures later { (S.faults src.old ≤ S.faults src.new) × (K.faults out.old ≤ K.faults out.new) }
{
    let mut piece = [0u8; PIECE];
    let mut page = Text::new(alloc);
    let mut room = limit;
    while room > 0 {
        let count = next_piece(src, &mut piece, room.min(PIECE))?;
        if count == 0 {
            return end_reader(reader, page, out);
        }
        room -= count;
        let progress = reader.read(&piece[..count], &mut page)?;
        write_text(out, &mut page)?;
        match progress {
            Progress::GoesOn => {}
            Progress::Stops => return end_reader(reader, page, out),
        }
    }
    let more = next_piece(src, &mut piece, 1)?;
    if more == 0 {
        return end_reader(reader, page, out);
    }
    pass_reader_limit(reader, page, out)
}
