//! Which blocks and streams a run has: each was made by the last command before it whose book tells
//! its number.
ghost use Rattle.std.specs.Prelude.{◌≡◌, slice_get, option_copied};
ghost use Rattle.script_books.specs.Made.{end_at, epid_at, is_some_of, kind_at, last_place, makes_block, makes_stream};

use crate::Book;
use crate::commands::{epids_of, kind_of, port_of};
use block_library::BlockKind;
use chdr_words::Epid;
use graph_core::{PortAt, Side};
use rf_script_types::ScriptCommand;

fn makes_block(books: &[Book], place: usize, block: usize) -> bool
    ensures { result ≡ is_some_of (makes_block block) (slice_get books.now place) }
{
    match books.get(place) {
        None => false,
        Some(Book::Block(number)) => *number as usize == block,
        Some(
            Book::Net
            | Book::Discover(_)
            | Book::Route(_)
            | Book::Control(_)
            | Book::Unload
            | Book::Connect(_)
            | Book::Set
            | Book::Commit
            | Book::Run(_)
            | Book::Twin(_)
            | Book::Duplex(_)
            | Book::Refused(_),
        ) => false,
    }
}

fn makes_stream(books: &[Book], place: usize, stream: usize) -> bool
    ensures { result ≡ is_some_of (makes_stream stream) (slice_get books.now place) }
{
    match books.get(place) {
        None => false,
        Some(Book::Connect(number)) => *number as usize == stream,
        Some(
            Book::Net
            | Book::Discover(_)
            | Book::Route(_)
            | Book::Control(_)
            | Book::Unload
            | Book::Block(_)
            | Book::Set
            | Book::Commit
            | Book::Run(_)
            | Book::Twin(_)
            | Book::Duplex(_)
            | Book::Refused(_),
        ) => false,
    }
}

/// The place of the command that made the block.
#[tactic(auto, using(crate::proofs::PlaceLemmas::place_lemmas))]
fn last_block(books: &[Book], end: usize, block: usize) -> Option<usize>
    ensures { result ≡ last_place (makes_block block) books.now end }
{
    let mut found = None;
    for place in 0..end {
        if makes_block(books, place, block) {
            found = Some(place);
        }
    }
    found
}

/// The place of the command that made the stream.
#[tactic(auto, using(crate::proofs::PlaceLemmas::place_lemmas))]
fn last_stream(books: &[Book], end: usize, stream: usize) -> Option<usize>
    ensures { result ≡ last_place (makes_stream stream) books.now end }
{
    let mut found = None;
    for place in 0..end {
        if makes_stream(books, place, stream) {
            found = Some(place);
        }
    }
    found
}

/// The kind of a block, as the first books tell.
pub fn kind_at(
    commands: &[ScriptCommand],
    books: &[Book],
    end: usize,
    block: usize,
) -> Option<BlockKind>
    ensures { result ≡ kind_at commands.now books.now end block }
{
    let place = last_block(books, end, block)?;
    let command = commands.get(place)?;
    kind_of(command)
}

/// The EPID of a port.
fn epid_at(
    commands: &[ScriptCommand],
    books: &[Book],
    end: usize,
    side: Side,
    at: PortAt,
) -> Option<Epid>
    ensures { result ≡ epid_at commands.now books.now end side at }
{
    let place = last_block(books, end, at.block as usize)?;
    let command = commands.get(place)?;
    epids_of(command, side).get(at.port as usize).copied()
}

/// The EPID of a stream's consumer (into) or of its producer (out).
pub fn end_at(
    commands: &[ScriptCommand],
    books: &[Book],
    end: usize,
    side: Side,
    stream: usize,
) -> Option<Epid>
    ensures { result ≡ end_at commands.now books.now end side stream }
{
    let place = last_stream(books, end, stream)?;
    let command = commands.get(place)?;
    let port = port_of(command, side)?;
    epid_at(commands, books, place, side, port)
}
