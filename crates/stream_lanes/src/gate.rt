/// What a worker passes before it goes on. No claim rests on it: tests use it to show that workers meet.
pub trait Gate: Sync {
    /// A source passes with its stream and the number of the packet that it puts next. A drain passes with 32,768 more
    /// than its stream, and the fabric with 65,533, each with the number of the round.
    fn pass(&self, stream: u16, number: u64);
}

/// A gate that lets everybody pass.
#[derive(Clone, Copy, Debug)]
pub struct FreeGate;

impl Gate for FreeGate {
    fn pass(&self, _stream: u16, _number: u64) {}
}
