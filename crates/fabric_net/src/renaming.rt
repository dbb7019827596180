//! Which faults are named, once requests and answers are named anew.
ghost use Rattle.std.specs.Prelude.{◌≡◌, ◌++◌, not, filter, IfOk, OnErr, OnOk};
ghost use Rattle.net_machine.specs.Faults.{is_transaction, renamed};
ghost use Rattle.fabric_events.specs.Fabrics.{IsSound, present_of};
ghost use Rattle.fabric_net.specs.Asking.{marked_now};

use fabric_events::Fabric;
use net_faults::{Fault, Faults};
use rf_base::{Items, Memory};
use std::alloc::Global;

/// Names requests and answers to lose, in place of those named before, and counts both from 0 again.
pub(crate) fn rename(fabric: &mut Fabric, faults: &Faults) -> Result<(), Memory>
    requires { IsSound fabric.old }
    ensures sound { IsSound fabric.new }
    ensures ok { OnOk result (present_of fabric.new ≡ marked_now faults.now (present_of fabric.old)) }
    ensures err { OnErr result (present_of fabric.new ≡ present_of fabric.old) }
{
    let named = renamed(*fabric.streams.allocator(), &fabric.faults, faults)?;
    fabric.faults = named;
    fabric.requests = 0;
    fabric.answers = 0;
    Ok(())
}

/// The faults of packets of streams among the old ones, and then those of requests and answers among the new ones.
fn renamed(alloc: Global, old: &Faults, new: &Faults) -> Result<Faults, Memory>
    ensures { IfOk result (λ faults. faults ≡ renamed old.now new.now) }
{
    let mut faults = Items::new(alloc);
    for fault in old.as_slice() {
        if !is_transaction(*fault) {
            faults.push(*fault)?;
        }
    }
    for fault in new.as_slice() {
        if is_transaction(*fault) {
            faults.push(*fault)?;
        }
    }
    Ok(faults)
}

/// Whether a fault names a request or an answer.
fn is_transaction(fault: Fault) -> bool
    ensures { result ≡ is_transaction fault }
{
    match fault {
        Fault::Samples(..) | Fault::Status(..) | Fault::Command(..) => false,
        Fault::Request(_) | Fault::Answer(_) => true,
    }
}
