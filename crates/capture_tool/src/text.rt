//! The lines of a listing that aren't a packet's.
ghost use Rattle.std.specs.Prelude.{◌≡◌, ◌++◌, codes, decimal, None, OnOk};
ghost use Rattle.capture_tool.specs.Listing.{last_line};
ghost use Rattle.capture_tool.specs.Text.{check_text, counts_line, fault_line, why_text};

use crate::seen::{Counts, Fault, Why};
use rf_base::Memory;
use rf_outside::Text;

fn why_text(why: Why) -> &'static [u8]
    ensures { result.now ≡ why_text why }
{
    match why {
        Why::ReservedType => b"ReservedType",
        Why::BadLength => b"BadLength",
        Why::Truncated => b"Truncated",
        Why::BadStatusLength => b"BadStatusLength",
        Why::BadCommandLength => b"BadCommandLength",
        Why::BadControlLength => b"BadControlLength",
        Why::BadManagement => b"BadManagement",
        Why::TooLong => b"TooLong",
        Why::BadMagic => b"BadMagic",
        Why::BadVersion => b"BadVersion",
        Why::BadLink => b"BadLink",
        Why::BadRecord => b"BadRecord",
    }
}

fn put_place(out: &mut Text, at: u64) -> Result<(), Memory>
    ensures { OnOk result (out.new ≡ out.old ++
        (codes " at " ++ decimal at ++ codes "\n")) }
{
    out.put(b" at ")?;
    out.put_number(at)?;
    out.put(b"\n")
}

/// The last line at a fault.
pub fn put_fault(out: &mut Text, fault: Fault) -> Result<(), Memory>
    ensures { OnOk result (out.new ≡ out.old ++ fault_line fault) }
{
    out.put(b"fault ")?;
    out.put(why_text(fault.why))?;
    put_place(out, fault.at)
}

fn put_canonical(out: &mut Text, canonical: u64) -> Result<(), Memory>
    ensures { OnOk result (out.new ≡ out.old ++
        (codes " canonical " ++ decimal canonical ++ codes "\n")) }
{
    out.put(b" canonical ")?;
    out.put_number(canonical)?;
    out.put(b"\n")
}

fn put_counts(out: &mut Text, counts: Counts) -> Result<(), Memory>
    ensures { OnOk result (out.new ≡ out.old ++ counts_line counts) }
{
    out.put(b"packets ")?;
    out.put_number(counts.packets)?;
    put_canonical(out, counts.canonical)
}

/// The line that check writes.
pub fn put_check(out: &mut Text, counts: Counts, fault: Option<Fault>) -> Result<(), Memory>
    ensures { OnOk result (out.new ≡ out.old ++ check_text counts fault) }
{
    match fault {
        None => put_counts(out, counts),
        Some(fault) => put_fault(out, fault),
    }
}

fn put_packets(out: &mut Text, packets: u64) -> Result<(), Memory>
    ensures { OnOk result (out.new ≡ out.old ++ last_line packets None) }
{
    out.put_field(b"packets ", packets)?;
    out.put(b"\n")
}

/// The last line that show writes.
pub fn put_last(out: &mut Text, packets: u64, fault: Option<Fault>) -> Result<(), Memory>
    ensures { OnOk result (out.new ≡ out.old ++ last_line packets fault) }
{
    match fault {
        None => put_packets(out, packets),
        Some(fault) => put_fault(out, fault),
    }
}
