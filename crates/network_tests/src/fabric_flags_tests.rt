use fabric_flags::Flags;
use std::test::Fail;

/// Flags 3, 64 and 130 of 200, in three words.
#[test]
fn set_flags_are_found_in_order(rt: HostRuntime) -> Result<(), Fail> {
    let mut flags = Flags::new(rt.alloc(), 200)?;
    assert_eq!(rt; flags.first(), None);
    flags.set(64, true);
    flags.set(130, true);
    flags.set(3, true);
    flags.set(64, true);
    assert_eq!(rt; flags.count(), 3);
    assert_eq!(rt; flags.first(), Some(3));
    assert_eq!(rt; flags.nth(1), Some(64));
    assert_eq!(rt; flags.nth(2), Some(130));
    assert_eq!(rt; flags.nth(3), None);
    flags.set(64, false);
    assert_eq!(rt; flags.next_from(4), Some(130));
    Ok(())
}
