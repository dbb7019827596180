use rf_base::{Copyable, Items, Memory};

/// A packet that the network is to lose, named by its place among those of its sort.
///
/// The first number of the first three is a stream; places count from 0.
#[derive(Clone, Copy, Debug, PartialEq, Eq)]
pub enum Fault {
    Samples(u16, u32),
    Status(u16, u32),
    Command(u16, u32),
    Request(u32),
    Answer(u32),
}

pub type Faults = Items<Fault>;

impl Copyable for Fault {
    fn copy(&self) -> Result<Fault, Memory> {
        Ok(*self)
    }
}
