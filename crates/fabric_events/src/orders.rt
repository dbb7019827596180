//! When commands and feeds are enabled, as far as the parts tell.
ghost use Rattle.std.specs.Prelude.{◌≡◌, ◌<◌, false, length};
ghost use Rattle.net_machine.specs.declared.event.Event.TheVariants.{Command, Feed};
ghost use Rattle.std.specs.Option.{option_map_or};
ghost use Rattle.net_machine.specs.Conditions.{can_order, has_untaken, may};
ghost use Rattle.net_machine.specs.Plans.{block_at, stream_into};
ghost use Rattle.net_present.specs.Present.{front_now};
ghost use Rattle.fabric_events.specs.Fabrics.{IsSound, present_of};

use crate::fabric::Fabric;
use chdr_words::CmdOp;
use fabric_lists::stream_reads;
use plan_lookups::{is_rx, stream_at, stream_into};

impl Fabric {
    /// Whether a command may be sent, as far as its stream tells.
    ///
    /// What costs most is looked at last: whether the stream is quiet, and whether its producer is finished.
    #[tactic(auto, using(crate::proofs::OrderLemmas::order_is, crate::proofs::OrderLemmas::order_asks, crate::proofs::OrderLemmas::order_waits))]
    fn can_order(&self, s: usize, op: CmdOp) -> bool
        requires sound { IsSound self.now }
        requires there { s < length self.now.plan.streams }
        ensures { result ≡ can_order (front_now (present_of self.now)) s op }
    {
        if !stream_reads::may_order(self.streams.as_slice(), s, op, true, true) {
            return false;
        }
        let quiet = self.is_quiet(s);
        if !stream_reads::may_order(self.streams.as_slice(), s, op, quiet, true) {
            return false;
        }
        let closed = self.is_closed(s);
        stream_reads::may_order(self.streams.as_slice(), s, op, quiet, closed)
    }

    /// Whether a Command of this stream is enabled.
    #[tactic(auto, unfolding(net_machine::specs::Conditions::may))]
    pub(crate) fn may_command(&self, s: usize, op: CmdOp) -> bool
        requires { IsSound self.now }
        ensures { result ≡ may (front_now (present_of self.now)) (Command s op) }
    {
        s < self.streams.len()
            && self.can_order(s, op)
            && self.has_place_from(0, stream_at(&self.plan, s).from)
    }

    /// Whether the stream into this input has a packet that isn't taken.
    #[tactic(auto, using(crate::proofs::FrontLemmas::front_of_stream))]
    fn has_untaken(&self, b: usize, i: usize) -> bool
        requires { b < length self.now.plan.blocks }
        ensures { result ≡ option_map_or (has_untaken (front_now (present_of self.now)))
            (stream_into self.now.plan (block_at self.now.plan b) i) false }
    {
        match stream_into(&self.plan, &self.plan.blocks.as_slice()[b], i) {
            Some(s) => stream_reads::has_untaken(self.streams.as_slice(), s),
            None => false,
        }
    }

    /// Whether a Feed of this block is enabled.
    #[tactic(auto, unfolding(net_machine::specs::Conditions::may))]
    pub(crate) fn may_feed(&self, b: usize, i: usize) -> bool
        requires { IsSound self.now }
        ensures { result ≡ may (front_now (present_of self.now)) (Feed b i) }
    {
        b < self.plan.blocks.len()
            && !is_rx(self.plan.blocks.as_slice()[b].kind)
            && self.has_untaken(b, i)
            && self.all_clear(self.plan.blocks.as_slice()[b].outs.as_slice())
    }
}
