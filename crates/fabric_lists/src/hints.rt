ghost use Rattle.std.specs.Prelude.{◌<◌};

use chdr_words::Epid;
use fabric_parts::Entry;

/// EPIDs with the same low 8 bits share the places of one, a place for each channel.
const EPIDS: usize = 256;

const PLACES: usize = 512;

/// Stands where nothing was seen.
const NO_QUEUE: usize = usize::MAX;

/// For EPIDs and channels, the queue where the last of the entries on their way there was seen.
///
/// These are hints: whoever asks looks into the queue.
#[derive(Debug, Drop)]
pub struct Hints {
    queues: [usize; PLACES],
}

impl Hints {
    pub fn new() -> Hints {
        Hints {
            queues: [NO_QUEUE; PLACES],
        }
    }

    /// The queue to look into for an entry to an EPID on a channel; there may be no such queue.
    pub fn queue(&self, epid: Epid, channel: usize) -> usize {
        self.queues[place(epid, channel)]
    }

    /// An entry to an EPID comes into the network by queue q, behind all others.
    pub fn enter(&mut self, epid: Epid, q: usize) {
        self.queues[place(epid, q)] = q;
    }

    /// An entry goes on to queue q; it may be the last one.
    pub fn go_on(&mut self, epid: Epid, q: usize) {
        let place = place(epid, q);
        if self.queues[place] == NO_QUEUE {
            self.queues[place] = q;
        }
    }

    /// An entry left queue q, and `next` is the front one now; if that goes to another EPID, the last one may have left.
    pub fn leave(&mut self, q: usize, entry: Option<&Entry>, next: Option<&Entry>) {
        let epid = match entry {
            Some(entry) => entry.packet.dst,
            None => return,
        };
        let is_followed = match next {
            Some(next) => next.packet.dst.0 == epid.0,
            None => false,
        };
        let place = place(epid, q);
        if !is_followed && self.queues[place] == q {
            self.queues[place] = NO_QUEUE;
        }
    }
}

/// The place of an EPID and of the channel of a queue, or of a channel.
fn place(epid: Epid, q: usize) -> usize
    ensures { result < 512 }
{
    2 * (epid.0 as usize % EPIDS) + q % 2
}
