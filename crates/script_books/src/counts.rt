//! What the last line and the statuses count.
ghost use Rattle.std.specs.Prelude.{◌≡◌, ◌≤◌, length, sum_by};
ghost use Rattle.script_books.specs.Counts.{ends_of, refused, refused_of, undrained, undrained_end, undrained_of};

use crate::Book;
use net_machine::StreamEnd;

/// How many commands were refused.
#[tactic(auto, using(crate::proofs::CountLemmas::sum_lemmas))]
pub fn refused(books: &[Book]) -> u64
    ensures count { result ≡ refused books.now }
    ensures within { result ≤ length books.now }
{
    let mut count = 0u64;
    for book in books {
        count += refused_of(book);
    }
    count
}

fn refused_of(book: &Book) -> u64
    ensures number { result ≡ refused_of book.now }
    ensures one { result ≤ 1 }
{
    match book {
        Book::Refused(_) => 1,
        Book::Net
        | Book::Discover(_)
        | Book::Route(_)
        | Book::Control(_)
        | Book::Unload
        | Book::Block(_)
        | Book::Connect(_)
        | Book::Set
        | Book::Commit
        | Book::Run(_)
        | Book::Twin(_)
        | Book::Duplex(_) => 0,
    }
}

/// How many stream ends of all runs aren't drained; it stands still at 2^64 - 1.
#[tactic(auto, using(crate::proofs::CountLemmas::sum_lemmas))]
pub fn undrained(books: &[Book]) -> u64
    ensures { result ≡ undrained books.now }
{
    let mut count = 0u64;
    for book in books {
        count = count.saturating_add(undrained_ends(ends_of(book)));
    }
    count
}

/// The stream ends of a run.
fn ends_of(book: &Book) -> &[StreamEnd]
    ensures { result.now ≡ ends_of book.now }
{
    match book {
        Book::Run(run) => run.ends.as_slice(),
        Book::Twin(twin) => twin.run.ends.as_slice(),
        Book::Duplex(duplex) => duplex.run.ends.as_slice(),
        Book::Net
        | Book::Discover(_)
        | Book::Route(_)
        | Book::Control(_)
        | Book::Unload
        | Book::Block(_)
        | Book::Connect(_)
        | Book::Set
        | Book::Commit
        | Book::Refused(_) => &[],
    }
}

#[tactic(auto, using(crate::proofs::CountLemmas::sum_lemmas))]
fn undrained_ends(ends: &[StreamEnd]) -> u64
    ensures count { result ≡ sum_by undrained_end ends.now }
    ensures within { result ≤ length ends.now }
{
    let mut count = 0u64;
    for end in ends {
        count += undrained_end(*end);
    }
    count
}

fn undrained_end(end: StreamEnd) -> u64
    ensures number { result ≡ undrained_end end }
    ensures one { result ≤ 1 }
{
    match end {
        StreamEnd::Drained => 0,
        StreamEnd::Broken {
            expected: _,
            got: _,
        }
        | StreamEnd::Undrained { sent: _, acked: _ } => 1,
    }
}
