ghost use Rattle.std.specs.Prelude.{◌≡◌, IfOk};
ghost use Rattle.fabric_lists.specs.StreamFlags.{HasStream, flags_of, is_calm, is_sending, noted};

use chdr_words::CmdOp;
use fabric_flags::Flags;
use fabric_parts::StreamPart;
use rf_base::Memory;
use std::alloc::Global;

/// Which streams may have an event to choose, as far as each tells by itself; nothing of the queues is looked at.
#[derive(Debug, Drop)]
pub struct StreamFlags {
    /// Whose first ready packet has credit, and was offered if a Tx makes it.
    pub sending: Flags,
    /// Whose receiver owes a status.
    pub owing: Flags,
    /// Whose sender might give a command: of stream s an INIT at 3 s, a PING at 3 s + 1, and a RESYNC at 3 s + 2.
    pub ordering: Flags,
}

impl StreamFlags {
    /// The flags of these streams.
    pub fn of(alloc: Global, parts: &[StreamPart]) -> Result<StreamFlags, Memory>
        ensures { IfOk result (λ flags. flags ≡ flags_of parts.now) }
    {
        let mut flags = StreamFlags {
            sending: Flags::new(alloc, parts.len())?,
            owing: Flags::new(alloc, parts.len())?,
            ordering: Flags::new(alloc, 3 * parts.len())?,
        };
        for s in 0..parts.len() {
            flags.note(s, &parts[s]);
        }
        Ok(flags)
    }

    /// Sets what is so of stream s.
    pub fn note(&mut self, s: usize, part: &StreamPart)
        requires { HasStream self.old s }
        ensures { self.new ≡ noted s part.now self.old }
    {
        let _ = self.ordering.len();
        let calm = is_calm(part);
        self.sending.set(s, is_sending(part));
        self.owing.set(s, part.is_due());
        self.ordering
            .set(3 * s, part.may_order(CmdOp::Init, calm, true));
        self.ordering
            .set(3 * s + 1, part.may_order(CmdOp::Ping, calm, true));
        self.ordering
            .set(3 * s + 2, part.may_order(CmdOp::Resync, calm, true));
    }
}

/// Whether a packet may be sent, but for room in its queue, and was offered if a Tx makes it.
fn is_sending(part: &StreamPart) -> bool
    ensures { result ≡ is_sending part.now }
{
    part.can_send() && (!part.is_tx() || part.offered() > 0)
}

/// Whether the stream is quiet as far as it tells: no status is due, and all that was given is taken.
fn is_calm(part: &StreamPart) -> bool
    ensures { result ≡ is_calm part.now.now }
{
    !part.is_due() && part.is_taken()
}
