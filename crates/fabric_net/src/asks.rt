//! What is given to a net and taken from it between its events.
ghost use Rattle.std.specs.Prelude.{◌≡◌, ◌-◌, ◌<◌, true, length, slice_get, IfOk, OnOk, OnErr, Some};
ghost use Rattle.net_machine.specs.Conditions.{ends_at_rx};
ghost use Rattle.net_machine.specs.Moves.{answered, asks, marked};
ghost use Rattle.net_machine.specs.State.{State, node_in, stream_at};
ghost use Rattle.net_present.specs.Kept.{now_at};
ghost use Rattle.net_present.specs.Onward.{on_now};
ghost use Rattle.fabric_parts.specs.Ready.{most_offered};
ghost use Rattle.fabric_parts.specs.Streams.{hands_now, offers_now};
ghost use Rattle.fabric_lists.specs.Opened.{is_tx_stream};
ghost use Rattle.fabric_net.specs.Asking.{CanAskNow, answered_now, asked_now, marked_now};
ghost use Rattle.fabric_net.specs.Standing.{HasNoEntries, StandsFor};

use crate::Net;
use crate::renaming::rename;
use chdr_packets::Packet;
use fabric_lists::stream_reads;
use net_faults::Faults;
use rf_base::Memory;

impl Net {
    /// Takes the next packet of a Tx's list; up to 16 offered packets of a stream wait to be sent.
    pub fn offer(&mut self, s: u16, packet: Packet)
        requires there { s < length self.old.present.streams }
        requires tx { is_tx_stream self.old.present.plan s ≡ true }
        requires few { (now_at self.old.present.streams s).offered < most_offered }
        requires next { slice_get (now_at self.old.present.streams s).ready
            (now_at self.old.present.streams s).offered ≡ Some packet }
        ensures present { self.new.present ≡ on_now s offers_now self.old.present }
        ensures machine { (w : State) → StandsFor self.old.present w → StandsFor self.new.present w }
        ensures journal { self.new.journal ≡ self.old.journal }
        ensures prepared { self.new.prepared ≡ None }
    {
        self.prepared = None;
        self.fabric.offer(s as usize, packet);
    }

    /// How many offered packets of a stream wait to be sent.
    pub fn offered(&self, s: u16) -> u32
        requires { s < length self.now.present.streams }
        ensures { result ≡ (now_at self.now.present.streams s).offered }
    {
        stream_reads::offered(self.fabric.streams.as_slice(), s as usize) as u32
    }

    /// The next packet of a Tx's list that wasn't offered; none after the last.
    pub fn unoffered(&self, s: u16) -> Result<Option<Packet>, Memory>
        requires there { s < length self.now.present.streams }
        requires tx { is_tx_stream self.now.present.plan s ≡ true }
        ensures { IfOk result (λ packet. packet
            ≡ slice_get (now_at self.now.present.streams s).ready (now_at self.now.present.streams s).offered) }
    {
        stream_reads::unoffered(self.fabric.streams.as_slice(), s as usize)
    }

    /// The next given packet of a stream to an Rx that wasn't handed out; none if there is none.
    pub fn hand(&mut self, s: u16) -> Option<Packet>
        requires there { s < length self.old.present.streams }
        requires rx { ends_at_rx self.old.present.plan s ≡ true }
        ensures packet { result ≡ slice_get (now_at self.old.present.streams s).waiting 0 }
        ensures given { (w : State) → StandsFor self.old.present w → result ≡ slice_get (stream_at w s).given
            ((now_at self.old.present.streams s).given - length (now_at self.old.present.streams s).waiting) }
        ensures present { self.new.present ≡ on_now s hands_now self.old.present }
        ensures machine { (w : State) → StandsFor self.old.present w → StandsFor self.new.present w }
        ensures journal { self.new.journal ≡ self.old.journal }
        ensures prepared { self.new.prepared ≡ None }
    {
        self.prepared = None;
        self.fabric.hand(s as usize)
    }

    /// Names the requests and answers to lose, in place of those named before, and counts both from 0 again. Other
    /// faults that are named stay, and those of other sorts in the list are passed over.
    ///
    /// At `Err` nothing changes but that nothing is prepared. Rule: docs/machine.md, "Losses".
    pub fn mark(&mut self, faults: &Faults) -> Result<(), Memory>
        requires { HasNoEntries self.old.present }
        ensures present { OnOk result (self.new.present ≡ marked_now faults.now self.old.present) }
        ensures machine { OnOk result ((w : State) → StandsFor self.old.present w → StandsFor self.new.present (marked faults.now w)) }
        ensures kept { OnErr result (self.new.present ≡ self.old.present) }
        ensures journal { self.new.journal ≡ self.old.journal }
        ensures prepared { self.new.prepared ≡ None }
    {
        self.prepared = None;
        rename(&mut self.fabric, faults)?;
        Ok(())
    }

    /// Gives a host a request, which leaves it when an Ask of the host happens.
    ///
    /// At `Err` nothing changes but that nothing is prepared, and the packet is dropped. Rule: docs/machine.md,
    /// "Requests and answers".
    pub fn ask(&mut self, node: u16, packet: Packet) -> Result<(), Memory>
        requires { CanAskNow self.old.present node packet }
        ensures present { OnOk result (self.new.present ≡ asked_now node packet self.old.present) }
        ensures machine { OnOk result ((w : State) → StandsFor self.old.present w → StandsFor self.new.present (asks node packet w)) }
        ensures kept { OnErr result (self.new.present ≡ self.old.present) }
        ensures journal { self.new.journal ≡ self.old.journal }
        ensures prepared { self.new.prepared ≡ None }
    {
        self.prepared = None;
        self.fabric.ask_request(node as usize, packet)?;
        Ok(())
    }

    /// Takes out the first answer that came to a node; none if no answer lies there.
    pub fn answer(&mut self, node: u16) -> Option<Packet>
        ensures answer { result ≡ slice_get (node_in self.old.present.nodes node).answers 0 }
        ensures present { self.new.present ≡ answered_now node self.old.present }
        ensures machine { (w : State) → StandsFor self.old.present w → StandsFor self.new.present (answered node w) }
        ensures journal { self.new.journal ≡ self.old.journal }
        ensures prepared { self.new.prepared ≡ None }
    {
        self.prepared = None;
        if (node as usize) < self.fabric.sites.len() {
            self.fabric.take_answer(node as usize)
        } else {
            None
        }
    }
}
