//! Each law is a function that does nothing and promises it.
ghost use Rattle.net_rows.specs.Blocks.{ArePassedOn};
ghost use Rattle.net_rows.specs.Credit.{IsWithinCapacity};
ghost use Rattle.net_rows.specs.Hosts.{AreTransactions};
ghost use Rattle.net_rows.specs.Journal.{IsJournal};
ghost use Rattle.net_rows.specs.Losses.{AreLosses};
ghost use Rattle.net_rows.specs.Numbers.{AreNumbers};
ghost use Rattle.net_rows.specs.Plans.{IsPossible};

/// Three packets cross a crossbar: one thread's journal, event by event.
pub fn three_packets_cross_a_crossbar()
    ensures { IsJournal }
{}

/// Ten packets under a small capacity: never more than two are outstanding.
pub fn capacity_bounds_what_is_outstanding()
    ensures { IsWithinCapacity }
{}

/// The numbers of packets are those of their stream modulo 2^16, wherever it starts.
pub fn numbers_wrap()
    ensures { AreNumbers }
{}

/// Six packets, of which a packet, a command or a status is lost, under both policies.
pub fn losses_end_or_resynchronise_a_stream()
    ensures { AreLosses }
{}

/// Packets through each kind of block that changes them, and that block's registers afterwards.
pub fn blocks_pass_packets_on()
    ensures { ArePassedOn }
{}

/// A host finds a network, writes a route, and reads and writes registers; an answer is lost.
pub fn hosts_read_and_write_registers()
    ensures { AreTransactions }
{}

/// The plan of the first run can begin on its network.
pub fn a_plan_can_begin()
    ensures { IsPossible }
{}
