ghost use Rattle.std.specs.Prelude.{◌≡◌, ◌+◌, ◌*◌};
ghost use Rattle.stream_endpoint.specs.Receiver.{is_due_by, notice_after};

use crate::Count;

/// The state of a sending end.
///
/// ```text
///                  OKAY                  SEQERR, or an OKAY that answers
///    ┌─────────┐          ┌─────────┐    a PING and leaves something outstanding
///    │ Opening ├─────────►│ Running ├───────────┬───────────────┐
///    └─────────┘          └─────────┘           │ auto          │ off
///     sends INIT           sends data, PING     ▼               ▼
///                              ▲          ┌────────────┐   ┌────────┐
///                              └──────────┤ Resyncing  │   │ Halted │
///                                 OKAY    └────────────┘   └────────┘
///                                          sends RESYNC     sends nothing
/// ```
///
/// Any other status changes no state. Rule: docs/streams.md, "The sender".
#[derive(Clone, Copy, Debug, PartialEq, Eq)]
pub enum OutState {
    /// No OKAY has answered an INIT yet.
    Opening,
    /// Data is sent as far as credit goes.
    Running,
    /// A loss ended the stream for good.
    Halted,
    /// A loss was seen, and no OKAY has answered a RESYNC yet.
    Resyncing,
}

/// Where a packet was missed: the number that was expected and the one that came.
#[derive(Clone, Copy, Debug, PartialEq, Eq)]
pub struct Gap {
    pub expected: u16,
    pub got: u16,
}

/// What a receiving end did with a packet.
#[derive(Clone, Copy, Debug, PartialEq, Eq)]
pub enum Arrived {
    /// It had the expected number and is buffered.
    Kept,
    /// It had another number than the expected one, and is dropped; the end is broken.
    Gap { expected: u16, got: u16 },
    /// It came behind a gap, and is dropped.
    Discarded,
}

/// Whether a receiving end owes a status.
#[derive(Clone, Copy, Debug, PartialEq, Eq)]
pub enum Notice {
    Due,
    /// None is owed; this much was taken since the last one.
    Since(Count),
}

impl Gap {
    /// What a SEQERR tells of the gap: 65,536 times the expected number and the one that came.
    pub fn info(self) -> u64
        ensures { result ≡ self.expected * 65536 + self.got }
    {
        self.expected as u64 * 65536 + self.got as u64
    }
}

impl Notice {
    pub fn is_due(self) -> bool
        ensures { result ≡ is_due_by self }
    {
        self == Notice::Due
    }

    /// The notice after this much more was taken under this frequency.
    ///
    /// Rule: docs/streams.md, "The receiver".
    pub fn after(self, frequency: Count, more: Count) -> Notice
        ensures { result ≡ notice_after frequency more self }
    {
        match self {
            Notice::Due => Notice::Due,
            Notice::Since(before) => {
                let packets = before.packets.saturating_add(more.packets);
                let bytes = before.bytes.saturating_add(more.bytes);
                if packets >= frequency.packets || bytes >= frequency.bytes {
                    Notice::Due
                } else {
                    Notice::Since(Count { packets, bytes })
                }
            }
        }
    }
}
