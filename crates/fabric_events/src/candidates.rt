ghost use Rattle.std.specs.Prelude.{◌≡◌, ◌<◌, ℕ, length, slice_get, Some};
ghost use Rattle.net_machine.specs.declared.event.Event.TheVariants.{Command};
ghost use Rattle.net_machine.specs.Choice.{commands_of};
ghost use Rattle.fabric_events.specs.Sizes.{candidate_count, candidates_in, first_feed, first_loss, first_order, first_reply, first_report};

use chdr_words::CmdOp;
use net_machine::Event;

/// How many streams, blocks, nodes and queues a net has; each is at most 65,535.
#[derive(Clone, Copy, Debug, PartialEq, Eq)]
pub struct Sizes {
    pub streams: u16,
    pub blocks: u16,
    pub nodes: u16,
    pub queues: u16,
}

impl Sizes {
    /// How many events a choice looks at.
    pub fn count(self) -> usize
        ensures count { result ≡ candidate_count self }
        ensures all { result ≡ length (candidates_in self) }
    {
        5 * self.streams as usize
            + 2 * self.blocks as usize
            + 2 * self.nodes as usize
            + 2 * self.queues as usize
    }

    /// The place of the first Command, behind the Enters.
    pub fn orders(self) -> usize
        ensures { result ≡ first_order self }
    {
        self.streams as usize
    }

    /// The place of the first Report, behind the Enters and Commands.
    pub fn reports(self) -> usize
        ensures { result ≡ first_report self }
    {
        4 * self.streams as usize
    }

    /// The place of the first Feed, behind the events of streams.
    pub fn feeds(self) -> usize
        ensures { result ≡ first_feed self }
    {
        5 * self.streams as usize
    }

    /// The place of the first Reply, behind the events of streams and blocks.
    pub fn replies(self) -> usize
        ensures { result ≡ first_reply self }
    {
        5 * self.streams as usize + 2 * self.blocks as usize
    }

    /// The place of the first Lose, behind the events of streams, blocks and nodes.
    pub fn losses(self) -> usize
        ensures { result ≡ first_loss self }
    {
        5 * self.streams as usize + 2 * self.blocks as usize + 2 * self.nodes as usize
    }

    /// The event at a place of the order in which a choice looks at events.
    ///
    /// Rule: docs/machine.md, "Choosing".
    pub fn event(self, place: usize) -> Event
        requires { place < candidate_count self }
        ensures { slice_get (candidates_in self) place ≡ Some result }
    {
        let streams = self.streams as usize;
        let nodes = self.nodes as usize;
        let queues = self.queues as usize;
        if place < streams {
            return Event::Enter(place as u16);
        }
        let place = place - streams;
        if place < 3 * streams {
            return Event::Command((place / 3) as u16, command(place % 3));
        }
        let place = place - 3 * streams;
        if place < streams {
            return Event::Report(place as u16);
        }
        let place = place - streams;
        if place < 2 * self.blocks as usize {
            return Event::Feed((place / 2) as u16, (place % 2) as u16);
        }
        let place = place - 2 * self.blocks as usize;
        if place < nodes {
            return Event::Reply(place as u16);
        }
        let place = place - nodes;
        if place < nodes {
            return Event::Ask(place as u16);
        }
        let place = place - nodes;
        if place < queues {
            return Event::Lose(place as u16);
        }
        Event::Hop((place - queues) as u16)
    }
}

/// The command at a place among those of a stream.
fn command(place: usize) -> CmdOp
    requires { place < 3 }
    ensures { (s : ℕ) → slice_get (commands_of s) place ≡ Some (Command s result) }
{
    match place {
        0 => CmdOp::Init,
        1 => CmdOp::Ping,
        _ => CmdOp::Resync,
    }
}
