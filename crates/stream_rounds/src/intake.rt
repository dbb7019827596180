ghost use Rattle.std.specs.Prelude.{◌≡◌, ◌+◌, ◌<◌, ◌≤◌, ◌⊎◌, false, length, MatchBool};
ghost use mathlib.Core.List.{IsPrefix};
ghost use Rattle.net_machine.specs.State.{State};
ghost use Rattle.fabric_net.specs.Standing.{StandsFor};
ghost use Rattle.fabric_parts.specs.Ready.{most_offered};
ghost use Rattle.stream_rounds.specs.Between.{IsFed};
ghost use Rattle.stream_rounds.specs.Meeting.{HaveMet};
ghost use Rattle.stream_rounds.specs.Presents.{at, offering};
ghost use Rattle.stream_rounds.specs.Turns.{Hears};

use credit_lane::LaneRx;
use fabric_net::Net;
use std::marker::Model;
use stream_lanes::Source;

/// How many offered packets of a stream wait at most.
const MOST_OFFERED: u32 = 16;

/// The fabric's end of the lane of a stream that a Tx fills.
#[derive(Drop)]
pub struct Intake<'a> {
    stream: u16,
    rx: LaneRx<'a>,
    /// Whether any packet was taken in the last round.
    moved: bool,
}

impl<'a> Model for Intake<'a> {
    ghost use Rattle.stream_rounds.specs.Sides.{IntakeSide};

    ghost Value = { IntakeSide };

    ghost use Rattle.stream_rounds.specs.Inside.{intake_side};

    ghost view = { intake_side };
}

impl<'a> Intake<'a> {
    /// The fabric's end of a stream's lane.
    pub fn new(stream: u16, rx: LaneRx<'a>) -> Intake<'a>
        ensures stream { result.stream ≡ stream }
        ensures rx { result.rx ≡ rx.entry }
    {
        Intake {
            stream,
            rx,
            moved: false,
        }
    }
}

impl Intake<'_> {
    /// Whether any packet was taken in the last round.
    pub(crate) fn moved(&self) -> bool
        ensures { result ≡ self.now.moved }
    {
        self.moved
    }

    /// Tells each end of the lane what the other one did, between two rounds.
    pub(crate) fn meet(&mut self, source: &mut Source<'_>)
        requires { source.old.tx.lane ≡ self.old.rx.lane }
        ensures { HaveMet source.old source.new self.old self.new }
    {
        source.meet(&mut self.rx);
    }

    /// One round: looks once, and offers to the net what is there then, as long as fewer offered packets wait than may.
    pub(crate) fn work(&mut self, net: &mut Net)
        requires { IsFed net.old.present self.old.stream self.old.rx }
        ensures fed { IsFed net.new.present self.new.stream self.new.rx }
        ensures hears { Hears net.old.present self.old self.new }
        ensures present { net.new.present
            ≡ offering self.old.stream (at net.new.present self.old.stream).offered net.old.present }
        ensures machine { (w : State) → StandsFor net.old.present w → StandsFor net.new.present w }
        ensures journal { net.new.journal ≡ net.old.journal }
    {
        self.rx.look_put();
        self.moved = hear(self.stream, &mut self.rx, net);
    }
}

/// Offers what is known to be put, as long as fewer offered packets wait than may, and tells whether it offered any.
fn hear(stream: u16, rx: &mut LaneRx<'_>, net: &mut Net) -> bool
    requires fed { IsFed net.old.present stream rx.old }
    requires order { IsPrefix rx.old.got rx.old.known }
    ensures fed { IsFed net.new.present stream rx.new }
    ensures lane { (rx.new.lane ≡ rx.old.lane) × (rx.new.known ≡ rx.old.known) }
    ensures longer { IsPrefix rx.old.got rx.new.got }
    ensures all { (rx.new.got ≡ rx.new.known)
        ⊎ ((at net.old.present stream).sent + most_offered ≤ length rx.new.got) }
    ensures tells { MatchBool result (length rx.old.got < length rx.new.got) (rx.new.got ≡ rx.old.got) }
    ensures present { net.new.present ≡ offering stream (at net.new.present stream).offered net.old.present }
    ensures machine { (w : State) → StandsFor net.old.present w → StandsFor net.new.present w }
    ensures journal { net.new.journal ≡ net.old.journal }
{
    let mut moved = false;
    while rx.waiting() > 0 && net.offered(stream) < MOST_OFFERED {
        let packet = rx.take();
        net.offer(stream, packet);
        moved = true;
    }
    moved
}
