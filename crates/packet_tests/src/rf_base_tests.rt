use rf_base::{Copyable, Items, Memory};
use std::test::Fail;

#[test]
fn a_list_keeps_what_was_pushed(rt: HostRuntime) -> Result<(), Fail> {
    let mut list = Items::new(rt.alloc());
    list.push(7u32)?;
    list.push(9)?;
    assert_eq!(rt; list.len(), 2);
    assert_eq!(rt; list.as_slice(), [7, 9].as_slice());
    Ok(())
}

/// A type that copies its lists item by item.
#[derive(Clone, Copy, Debug, PartialEq, Eq)]
enum Side {
    Left,
    Right,
}

impl Copyable for Side {
    fn copy(&self) -> Result<Side, Memory> {
        Ok(*self)
    }
}

#[test]
fn lists_are_copied_whole(rt: HostRuntime) -> Result<(), Fail> {
    let bytes = [0, u8::MAX, 1];
    assert_eq!(rt;
        u8::copy_all(rt.alloc(), &bytes)?.as_slice(),
        bytes.as_slice()
    );
    let halves = [0, u16::MAX, 1];
    assert_eq!(rt;
        u16::copy_all(rt.alloc(), &halves)?.as_slice(),
        halves.as_slice()
    );
    let words = [0, u32::MAX, 1];
    assert_eq!(rt;
        u32::copy_all(rt.alloc(), &words)?.as_slice(),
        words.as_slice()
    );
    let longs = [0, u64::MAX, 1];
    assert_eq!(rt;
        u64::copy_all(rt.alloc(), &longs)?.as_slice(),
        longs.as_slice()
    );
    let sides = [Side::Right, Side::Left, Side::Right];
    assert_eq!(rt;
        Side::copy_all(rt.alloc(), &sides)?.as_slice(),
        sides.as_slice()
    );
    Ok(())
}

#[test]
fn memory_says_itself_in_words(rt: HostRuntime) -> Result<(), Fail> {
    assert_eq!(rt;
        format!(in rt.alloc(); "{Memory}")?.as_str(),
        "out of memory"
    );
    Ok(())
}
