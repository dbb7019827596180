ghost use Rattle.std.specs.Prelude.{◌≡◌, IfOk};

use crate::Memory;
use std::alloc::Global;

/// A value that can be written out once more, though it is no `Copy`.
pub trait Copyable: Drop + Sized {
    /// An equal value of its own.
    fn copy(&self) -> Result<Self, Memory>
        ensures { IfOk result (λ made. made ≡ self.now) };

    /// An equal list of its own, item by item unless the type has a faster way.
    fn copy_all(alloc: Global, items: &[Self]) -> Result<Vec<Self>, Memory>
        ensures { IfOk result (λ made. made.items ≡ items.now) }
    {
        let mut made = Vec::with_capacity(alloc, items.len())?;
        for item in items {
            made.push(item.copy()?)?;
        }
        Ok(made)
    }
}

impl Copyable for u8 {
    fn copy(&self) -> Result<u8, Memory> {
        Ok(*self)
    }

    fn copy_all(alloc: Global, items: &[u8]) -> Result<Vec<u8>, Memory> {
        Ok(Vec::from_slice(alloc, items)?)
    }
}

impl Copyable for u16 {
    fn copy(&self) -> Result<u16, Memory> {
        Ok(*self)
    }

    fn copy_all(alloc: Global, items: &[u16]) -> Result<Vec<u16>, Memory> {
        Ok(Vec::from_slice(alloc, items)?)
    }
}

impl Copyable for u32 {
    fn copy(&self) -> Result<u32, Memory> {
        Ok(*self)
    }

    fn copy_all(alloc: Global, items: &[u32]) -> Result<Vec<u32>, Memory> {
        Ok(Vec::from_slice(alloc, items)?)
    }
}

impl Copyable for u64 {
    fn copy(&self) -> Result<u64, Memory> {
        Ok(*self)
    }

    fn copy_all(alloc: Global, items: &[u64]) -> Result<Vec<u64>, Memory> {
        Ok(Vec::from_slice(alloc, items)?)
    }
}
