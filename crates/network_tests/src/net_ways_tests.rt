use net_ways::law::what_is_picked_follows_the_queues;
use std::test::Fail;

#[test]
fn the_laws_of_picking_hold_of_entries_of_a_type(_rt: HostRuntime) -> Result<(), Fail> {
    what_is_picked_follows_the_queues::<u32, u16>();
    Ok(())
}
