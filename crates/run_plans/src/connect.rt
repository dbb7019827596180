ghost use Rattle.std.specs.Prelude.{◌≡◌, ◌↔◌, ◌<◌, ◌^◌, IsTrue, IfOk, OnOk, OnErr, MatchOption, length};
ghost use Rattle.chdr_words.specs.declared.epid.Epid.{Epid};
ghost use Rattle.graph_core.specs.State.{with_edge};
ghost use Rattle.stream_endpoint.specs.Flow.{IsValid};
ghost use Rattle.run_plans.specs.Layouts.{IsLayout};
ghost use Rattle.run_plans.specs.Refusals.{CanConnect, IsConnectRefusal, IsLoop};
ghost use Rattle.run_plans.specs.Changes.{with_stream};

use crate::{ConnectRefusal, Layout};
use chdr_words::Epid;
use graph_core::{ConnectFault, Graph, PortAt, Side};
use net_machine::StreamPlan;
use rf_base::Memory;
use stream_endpoint::{Flow, Policy};

/// What a stream keeps to.
#[derive(Clone, Copy, Debug, PartialEq, Eq)]
pub struct Terms {
    pub flow: Flow,
    /// The number of the first packet, below 2^40.
    pub start: u64,
    pub policy: Policy,
}

impl Terms {
    /// Whether the numbers are in their ranges.
    pub fn fits(&self) -> bool
        ensures { IsTrue result ↔ ((self.now.start < 2 ^ 40) × IsValid self.now.flow) }
    {
        self.start < 1 << 40 && self.flow.valid()
    }
}

impl Layout {
    /// Why a stream can't go from one port to the other; nothing if it can.
    ///
    /// Rule: docs/graph.md, "Blocks and streams".
    pub fn connect_refusal(&self, graph: &Graph, from: PortAt, to: PortAt) -> Option<ConnectRefusal>
        ensures { IsConnectRefusal graph.now.diagram self.now from to result }
    {
        if self.streams.len() >= 16 {
            return Some(ConnectRefusal::TooManyStreams);
        }
        match graph.refusal(from, to) {
            Some(ConnectFault::BadPort) => Some(ConnectRefusal::BadPort),
            Some(ConnectFault::PortTaken) => Some(ConnectRefusal::PortTaken),
            Some(ConnectFault::Cycle) => Some(ConnectRefusal::Cycle),
            Some(ConnectFault::Memory) => unreachable!(),
            None => match self.loop_at(from, to) {
                Some(epid) => Some(ConnectRefusal::Loop { epid }),
                None => None,
            },
        }
    }

    /// Adds an edge and the stream along it, and returns the stream's number.
    ///
    /// At `Err` the layout stays, and the graph may have the edge.
    pub fn connect(
        &mut self,
        graph: &mut Graph,
        from: PortAt,
        to: PortAt,
        terms: Terms,
    ) -> Result<u16, Memory>
        requires layout { IsLayout graph.old.diagram self.old }
        requires can { CanConnect graph.old.diagram self.old from to }
        requires start { terms.start < 2 ^ 40 }
        requires flow { IsValid terms.flow }
        ensures number { IfOk result (λ number. number ≡ length self.old.streams) }
        ensures ok { OnOk result (self.new ≡ with_stream self.old from to terms) }
        ensures graph { OnOk result (graph.new ≡ with_edge graph.old (record { from = from; to = to })) }
        ensures kept { OnOk result (IsLayout graph.new.diagram self.new) }
        ensures err { OnErr result (self.new ≡ self.old) }
    {
        let stream = StreamPlan {
            from: self.end(Side::Out, from).unwrap_or(Epid(0)),
            to: self.end(Side::Into, to).unwrap_or(Epid(0)),
            flow: terms.flow,
            start: terms.start,
            policy: terms.policy,
        };
        match graph.connect(from, to) {
            Ok(number) => {
                self.streams.push(stream)?;
                Ok(number)
            }
            Err(_) => Err(Memory),
        }
    }

    /// The EPID that both ports have, if they have one.
    fn loop_at(&self, from: PortAt, to: PortAt) -> Option<Epid>
        ensures { MatchOption result
            ((epid : Epid) → IsLoop self.now from to epid → ⊥)
            (IsLoop self.now from to) }
    {
        let begin = self.end(Side::Out, from)?;
        let end = self.end(Side::Into, to)?;
        if begin == end { Some(begin) } else { None }
    }
}
