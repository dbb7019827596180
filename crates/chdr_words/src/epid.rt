use rf_base::{Copyable, Memory};

/// The 16-bit id of a stream endpoint; 0 names none.
#[derive(Clone, Copy, Debug, PartialEq, Eq, PartialOrd, Ord, Hash)]
pub struct Epid(pub u16);

impl Copyable for Epid {
    fn copy(&self) -> Result<Epid, Memory> {
        Ok(*self)
    }
}
