use std::test::Fail;
use stream_laws::{
    a_loss_can_halt, a_loss_is_mended, commands_end, credit_is_never_passed, drained_gives_all,
    drained_stays, epochs_are_few, given_begins_sent, nothing_is_given_after_a_gap,
    only_a_loss_breaks, rest_is_an_end, rest_is_quiet, runs_join, spellings_tell,
    taken_begins_given, tests_tell_their_conditions, the_invariant_holds, what_is_kept_finds_room,
    what_was_made_is_sent_in_order,
};

#[test]
fn the_laws_hold_of_packets_of_a_type(_rt: HostRuntime) -> Result<(), Fail> {
    the_invariant_holds::<u32>();
    given_begins_sent::<u32>();
    taken_begins_given::<u32>();
    credit_is_never_passed::<u32>();
    what_is_kept_finds_room::<u32>();
    only_a_loss_breaks::<u32>();
    nothing_is_given_after_a_gap::<u32>();
    epochs_are_few::<u32>();
    spellings_tell::<u32>();
    runs_join::<u32>();
    what_was_made_is_sent_in_order::<u32>();
    tests_tell_their_conditions::<u32>();
    a_loss_is_mended();
    a_loss_can_halt();
    drained_gives_all::<u32>();
    drained_stays::<u32>();
    rest_is_quiet::<u32>();
    rest_is_an_end::<u32>();
    commands_end::<u32>();
    Ok(())
}
