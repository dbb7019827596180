//! The words of the language: each stands here once, for the reader and for the writer.
ghost use Rattle.std.specs.Prelude.{◌≡◌};
ghost use Rattle.rf_script_types.specs.Words.{verb_name, verb_of, node_word_name, node_word_of, kind_word_name, kind_word_of, sort_name, sort_of, act_word_name, act_word_of, op_name, op_of, side_name, side_of, property_name, property_of, policy_name, policy_of};

use chdr_words::CtrlOp;
use graph_core::{Prop, Side};
use stream_endpoint::Policy;

/// What a command does: the word of its field `do`.
#[derive(Clone, Copy, Debug, PartialEq, Eq)]
pub enum Verb {
    Net,
    Discover,
    Route,
    Control,
    Unload,
    Block,
    Connect,
    Set,
    Commit,
    Run,
    Twin,
    Duplex,
}

impl Verb {
    pub fn name(self) -> &'static str
        ensures { result.now ≡ verb_name self }
    {
        match self {
            Verb::Net => "net",
            Verb::Discover => "discover",
            Verb::Route => "route",
            Verb::Control => "control",
            Verb::Unload => "unload",
            Verb::Block => "block",
            Verb::Connect => "connect",
            Verb::Set => "set",
            Verb::Commit => "commit",
            Verb::Run => "run",
            Verb::Twin => "twin",
            Verb::Duplex => "duplex",
        }
    }

    /// The word that the text is.
    #[tactic(auto, unfolding(crate::specs::Words::verb_of))]
    pub fn of_name(text: &str) -> Option<Verb>
        ensures { result ≡ verb_of text.now }
    {
        if text == Verb::Net.name() {
            Some(Verb::Net)
        } else if text == Verb::Discover.name() {
            Some(Verb::Discover)
        } else if text == Verb::Route.name() {
            Some(Verb::Route)
        } else if text == Verb::Control.name() {
            Some(Verb::Control)
        } else if text == Verb::Unload.name() {
            Some(Verb::Unload)
        } else if text == Verb::Block.name() {
            Some(Verb::Block)
        } else if text == Verb::Connect.name() {
            Some(Verb::Connect)
        } else if text == Verb::Set.name() {
            Some(Verb::Set)
        } else if text == Verb::Commit.name() {
            Some(Verb::Commit)
        } else if text == Verb::Run.name() {
            Some(Verb::Run)
        } else if text == Verb::Twin.name() {
            Some(Verb::Twin)
        } else if text == Verb::Duplex.name() {
            Some(Verb::Duplex)
        } else {
            None
        }
    }
}

/// The kind of a node.
#[derive(Clone, Copy, Debug, PartialEq, Eq)]
pub enum NodeWord {
    Crossbar,
    Adapter,
    Host,
    Endpoint,
}

impl NodeWord {
    pub fn name(self) -> &'static str
        ensures { result.now ≡ node_word_name self }
    {
        match self {
            NodeWord::Crossbar => "xbar",
            NodeWord::Adapter => "adapter",
            NodeWord::Host => "host",
            NodeWord::Endpoint => "endpoint",
        }
    }

    /// The word that the text is.
    #[tactic(auto, unfolding(crate::specs::Words::node_word_of))]
    pub fn of_name(text: &str) -> Option<NodeWord>
        ensures { result ≡ node_word_of text.now }
    {
        if text == NodeWord::Crossbar.name() {
            Some(NodeWord::Crossbar)
        } else if text == NodeWord::Adapter.name() {
            Some(NodeWord::Adapter)
        } else if text == NodeWord::Host.name() {
            Some(NodeWord::Host)
        } else if text == NodeWord::Endpoint.name() {
            Some(NodeWord::Endpoint)
        } else {
            None
        }
    }
}

/// The kind of a block, without its number.
#[derive(Clone, Copy, Debug, PartialEq, Eq)]
pub enum KindWord {
    Tx,
    Rx,
    Fifo,
    Split,
    Keep,
    Repeat,
    Replay,
    Switch,
    Sink,
}

impl KindWord {
    pub fn name(self) -> &'static str
        ensures { result.now ≡ kind_word_name self }
    {
        match self {
            KindWord::Tx => "tx",
            KindWord::Rx => "rx",
            KindWord::Fifo => "fifo",
            KindWord::Split => "split",
            KindWord::Keep => "keep",
            KindWord::Repeat => "repeat",
            KindWord::Replay => "replay",
            KindWord::Switch => "switch",
            KindWord::Sink => "sink",
        }
    }

    /// The word that the text is.
    #[tactic(auto, unfolding(crate::specs::Words::kind_word_of))]
    pub fn of_name(text: &str) -> Option<KindWord>
        ensures { result ≡ kind_word_of text.now }
    {
        if text == KindWord::Tx.name() {
            Some(KindWord::Tx)
        } else if text == KindWord::Rx.name() {
            Some(KindWord::Rx)
        } else if text == KindWord::Fifo.name() {
            Some(KindWord::Fifo)
        } else if text == KindWord::Split.name() {
            Some(KindWord::Split)
        } else if text == KindWord::Keep.name() {
            Some(KindWord::Keep)
        } else if text == KindWord::Repeat.name() {
            Some(KindWord::Repeat)
        } else if text == KindWord::Replay.name() {
            Some(KindWord::Replay)
        } else if text == KindWord::Switch.name() {
            Some(KindWord::Switch)
        } else if text == KindWord::Sink.name() {
            Some(KindWord::Sink)
        } else {
            None
        }
    }
}

/// The sort of the packets that an entry of a lose list names.
#[derive(Clone, Copy, Debug, PartialEq, Eq)]
pub enum Sort {
    Samples,
    Status,
    Command,
    Request,
    Answer,
}

impl Sort {
    pub fn name(self) -> &'static str
        ensures { result.now ≡ sort_name self }
    {
        match self {
            Sort::Samples => "data",
            Sort::Status => "status",
            Sort::Command => "command",
            Sort::Request => "request",
            Sort::Answer => "answer",
        }
    }

    /// The word that the text is.
    #[tactic(auto, unfolding(crate::specs::Words::sort_of))]
    pub fn of_name(text: &str) -> Option<Sort>
        ensures { result ≡ sort_of text.now }
    {
        if text == Sort::Samples.name() {
            Some(Sort::Samples)
        } else if text == Sort::Status.name() {
            Some(Sort::Status)
        } else if text == Sort::Command.name() {
            Some(Sort::Command)
        } else if text == Sort::Request.name() {
            Some(Sort::Request)
        } else if text == Sort::Answer.name() {
            Some(Sort::Answer)
        } else {
            None
        }
    }
}

/// What an act does.
#[derive(Clone, Copy, Debug, PartialEq, Eq)]
pub enum ActWord {
    Control,
    Unload,
    Move,
}

impl ActWord {
    pub fn name(self) -> &'static str
        ensures { result.now ≡ act_word_name self }
    {
        match self {
            ActWord::Control => "control",
            ActWord::Unload => "unload",
            ActWord::Move => "move",
        }
    }

    /// The word that the text is.
    #[tactic(auto, unfolding(crate::specs::Words::act_word_of))]
    pub fn of_name(text: &str) -> Option<ActWord>
        ensures { result ≡ act_word_of text.now }
    {
        if text == ActWord::Control.name() {
            Some(ActWord::Control)
        } else if text == ActWord::Unload.name() {
            Some(ActWord::Unload)
        } else if text == ActWord::Move.name() {
            Some(ActWord::Move)
        } else {
            None
        }
    }
}

/// The word of a control operation; a script has no others.
pub fn op_name(op: CtrlOp) -> &'static str
    ensures { result.now ≡ op_name op }
{
    match op {
        CtrlOp::Sleep => "SLEEP",
        CtrlOp::Write => "WRITE",
        CtrlOp::Read => "READ",
        CtrlOp::ReadWrite => "READ_WRITE",
        CtrlOp::BlockWrite => "BLOCK_WRITE",
        CtrlOp::BlockRead => "BLOCK_READ",
        CtrlOp::Poll => "POLL",
        CtrlOp::Other(_) | CtrlOp::User(_) => "",
    }
}

/// What the text is the word of.
#[tactic(auto, unfolding(crate::specs::Words::op_of))]
pub fn op_of(text: &str) -> Option<CtrlOp>
    ensures { result ≡ op_of text.now }
{
    if text == op_name(CtrlOp::Sleep) {
        Some(CtrlOp::Sleep)
    } else if text == op_name(CtrlOp::Write) {
        Some(CtrlOp::Write)
    } else if text == op_name(CtrlOp::Read) {
        Some(CtrlOp::Read)
    } else if text == op_name(CtrlOp::ReadWrite) {
        Some(CtrlOp::ReadWrite)
    } else if text == op_name(CtrlOp::BlockWrite) {
        Some(CtrlOp::BlockWrite)
    } else if text == op_name(CtrlOp::BlockRead) {
        Some(CtrlOp::BlockRead)
    } else if text == op_name(CtrlOp::Poll) {
        Some(CtrlOp::Poll)
    } else {
        None
    }
}

/// The word of a side of a block.
pub fn side_name(side: Side) -> &'static str
    ensures { result.now ≡ side_name side }
{
    match side {
        Side::Into => "in",
        Side::Out => "out",
    }
}

/// What the text is the word of.
#[tactic(auto, unfolding(crate::specs::Words::side_of))]
pub fn side_of(text: &str) -> Option<Side>
    ensures { result ≡ side_of text.now }
{
    if text == side_name(Side::Into) {
        Some(Side::Into)
    } else if text == side_name(Side::Out) {
        Some(Side::Out)
    } else {
        None
    }
}

/// The word of a property.
pub fn property_name(property: Prop) -> &'static str
    ensures { result.now ≡ property_name property }
{
    match property {
        Prop::Rate => "rate",
        Prop::Item => "item",
        Prop::Spp => "spp",
    }
}

/// What the text is the word of.
#[tactic(auto, unfolding(crate::specs::Words::property_of))]
pub fn property_of(text: &str) -> Option<Prop>
    ensures { result ≡ property_of text.now }
{
    if text == property_name(Prop::Rate) {
        Some(Prop::Rate)
    } else if text == property_name(Prop::Item) {
        Some(Prop::Item)
    } else if text == property_name(Prop::Spp) {
        Some(Prop::Spp)
    } else {
        None
    }
}

/// The word of a policy.
pub fn policy_name(policy: Policy) -> &'static str
    ensures { result.now ≡ policy_name policy }
{
    match policy {
        Policy::Auto => "auto",
        Policy::Off => "off",
    }
}

/// What the text is the word of.
#[tactic(auto, unfolding(crate::specs::Words::policy_of))]
pub fn policy_of(text: &str) -> Option<Policy>
    ensures { result ≡ policy_of text.now }
{
    if text == policy_name(Policy::Auto) {
        Some(Policy::Auto)
    } else if text == policy_name(Policy::Off) {
        Some(Policy::Off)
    } else {
        None
    }
}
