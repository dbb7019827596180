//! Which producers are finished, which streams are quiet, and which commands may be sent.
ghost use Rattle.std.specs.Prelude.{◌≡◌, ◌<◌, length};
ghost use Rattle.std.specs.List.{list_all};
ghost use Rattle.net_machine.specs.declared.event.Event.TheVariants.{Command, Feed};
ghost use Rattle.net_machine.specs.Blocks.{is_clear, is_closed, is_finished};
ghost use Rattle.net_machine.specs.Conditions.{can_order, is_quiet, may};
ghost use Rattle.net_present.specs.Present.{front_now};
ghost use Rattle.fabric_events.specs.Fabrics.{IsSound, input_drained, present_of};

use crate::fabric::Fabric;
use chdr_words::{CmdOp, Epid};
use fabric_lists::stream_reads;
use plan_lookups::{is_rx, is_tx, producer_of, stream_at, stream_into, stream_to};

impl Fabric {
    /// Whether nothing is ready at any of these EPIDs.
    pub(crate) fn all_clear(&self, epids: &[Epid]) -> bool
        ensures { result ≡ list_all (is_clear (front_now (present_of self.now))) epids.now }
    {
        epids.iter().all(|epid| self.is_clear(*epid))
    }

    /// Whether a block makes no more, by up to k blocks upstream.
    #[cycle(finished)]
    fn is_finished(&self, k: usize, b: usize) -> bool
        requires sound { IsSound self.now }
        requires there { b < length self.now.plan.blocks }
        ensures { result ≡ is_finished k (front_now (present_of self.now)) b }
    {
        if k == 0 {
            return false;
        }
        let block = &self.plan.blocks.as_slice()[b];
        if is_tx(block.kind) {
            return self.all_clear(block.outs.as_slice());
        }
        self.all_drained(k - 1, block.ins.as_slice())
    }

    /// Whether the streams that end at these EPIDs are drained, by up to k blocks upstream.
    #[cycle(finished)]
    fn all_drained(&self, k: usize, epids: &[Epid]) -> bool
        requires { IsSound self.now }
        ensures { result ≡ list_all (input_drained k (front_now (present_of self.now))) epids.now }
    {
        for epid in epids {
            if !self.input_drained(k, *epid) {
                return false;
            }
        }
        true
    }

    /// Whether the stream that ends at an EPID is.
    #[tactic(auto, using(crate::proofs::FrontLemmas::front_of_stream))]
    #[cycle(finished)]
    fn input_drained(&self, k: usize, epid: Epid) -> bool
        requires { IsSound self.now }
        ensures { result ≡ input_drained k (front_now (present_of self.now)) epid }
    {
        let s = match stream_to(&self.plan, epid) {
            Some(s) => s,
            None => return false,
        };
        let finished = match producer_of(&self.plan, s) {
            Some(producer) => self.is_finished(k, producer),
            None => false,
        };
        stream_reads::is_drained(self.streams.as_slice(), s, finished)
    }

    /// Whether the producer of a stream makes no more.
    pub fn is_closed(&self, s: usize) -> bool
        requires sound { IsSound self.now }
        requires there { s < length self.now.plan.streams }
        ensures { result ≡ is_closed (front_now (present_of self.now)) s }
    {
        match producer_of(&self.plan, s) {
            Some(producer) => self.is_finished(self.plan.blocks.len(), producer),
            None => false,
        }
    }

    /// Whether nothing of a stream is under way or due, and all that was given is taken.
    #[tactic(auto, using(crate::proofs::FrontLemmas::front_of_stream, crate::proofs::FrontLemmas::and_false))]
    pub fn is_quiet(&self, s: usize) -> bool
        requires sound { IsSound self.now }
        requires there { s < length self.now.plan.streams }
        ensures { result ≡ is_quiet (front_now (present_of self.now)) s }
    {
        if stream_reads::is_due(self.streams.as_slice(), s) {
            return false;
        }
        if !stream_reads::is_taken(self.streams.as_slice(), s) {
            return false;
        }
        self.queues.has_none_of(&stream_at(&self.plan, s))
    }
}
