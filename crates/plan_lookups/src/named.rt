//! Which packets a list of faults names; places count beyond what a fault can name.
ghost use Rattle.std.specs.Prelude.{◌≡◌};
ghost use Rattle.net_machine.specs.Faults.{is_named, names_answer, names_command, names_request, names_samples, names_status};
ghost use Rattle.net_faults.specs.declared.fault.Fault.TheVariants.{Answer, Command, Request, Samples, Status};

use net_faults::{Fault, Faults};

/// Whether packet `k` of the samples of stream `s` is to be lost.
pub fn is_named_samples(faults: &Faults, s: usize, k: u64) -> bool
    ensures { result ≡ is_named faults.now (Samples s k) }
{
    faults
        .as_slice()
        .iter()
        .any(|fault| names_samples(s, k, *fault))
}

/// Whether status `k` of stream `s` is.
pub fn is_named_status(faults: &Faults, s: usize, k: u64) -> bool
    ensures { result ≡ is_named faults.now (Status s k) }
{
    faults
        .as_slice()
        .iter()
        .any(|fault| names_status(s, k, *fault))
}

/// Whether command `k` of stream `s` is.
pub fn is_named_command(faults: &Faults, s: usize, k: u64) -> bool
    ensures { result ≡ is_named faults.now (Command s k) }
{
    faults
        .as_slice()
        .iter()
        .any(|fault| names_command(s, k, *fault))
}

/// Whether request `k` is.
pub fn is_named_request(faults: &Faults, k: u64) -> bool
    ensures { result ≡ is_named faults.now (Request k) }
{
    faults
        .as_slice()
        .iter()
        .any(|fault| names_request(k, *fault))
}

/// Whether answer `k` is.
pub fn is_named_answer(faults: &Faults, k: u64) -> bool
    ensures { result ≡ is_named faults.now (Answer k) }
{
    faults
        .as_slice()
        .iter()
        .any(|fault| names_answer(k, *fault))
}

fn names_samples(s: usize, k: u64, fault: Fault) -> bool
    ensures { result ≡ names_samples s k fault }
{
    match fault {
        Fault::Samples(t, j) => t as usize == s && j as u64 == k,
        Fault::Status(..) | Fault::Command(..) | Fault::Request(_) | Fault::Answer(_) => false,
    }
}

fn names_status(s: usize, k: u64, fault: Fault) -> bool
    ensures { result ≡ names_status s k fault }
{
    match fault {
        Fault::Status(t, j) => t as usize == s && j as u64 == k,
        Fault::Samples(..) | Fault::Command(..) | Fault::Request(_) | Fault::Answer(_) => false,
    }
}

fn names_command(s: usize, k: u64, fault: Fault) -> bool
    ensures { result ≡ names_command s k fault }
{
    match fault {
        Fault::Command(t, j) => t as usize == s && j as u64 == k,
        Fault::Samples(..) | Fault::Status(..) | Fault::Request(_) | Fault::Answer(_) => false,
    }
}

fn names_request(k: u64, fault: Fault) -> bool
    ensures { result ≡ names_request k fault }
{
    match fault {
        Fault::Request(j) => j as u64 == k,
        Fault::Samples(..) | Fault::Status(..) | Fault::Command(..) | Fault::Answer(_) => false,
    }
}

fn names_answer(k: u64, fault: Fault) -> bool
    ensures { result ≡ names_answer k fault }
{
    match fault {
        Fault::Answer(j) => j as u64 == k,
        Fault::Samples(..) | Fault::Status(..) | Fault::Command(..) | Fault::Request(_) => false,
    }
}
