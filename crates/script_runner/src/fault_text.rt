//! The line of a script's fault.
ghost use Rattle.std.specs.Prelude.{◌≡◌, ◌++◌, IfOk, OnOk, codes, map};
ghost use Rattle.script_runner.specs.FaultLines.{fault_line, field_text, form_line, place_text, shown, why_text};

use rf_base::Memory;
use rf_outside::Text;
use rf_script_types::{ScriptFault, Why};
use std::alloc::Global;

fn why_text(why: Why) -> &'static [u8]
    ensures { result.now ≡ why_text why }
{
    match why {
        Why::Missing => b"Missing",
        Why::WrongType => b"Type",
        Why::Range => b"Range",
        Why::Flow => b"Flow",
        Why::Unknown => b"Unknown",
        Why::Name => b"Name",
        Why::NoName => b"NoName",
    }
}

fn put_place(text: &mut Text, command: Option<u32>) -> Result<(), Memory>
    ensures { OnOk result (text.new ≡ text.old ++ place_text command) }
{
    match command {
        Some(number) => text.put_number(number as u64),
        None => text.put(b"-"),
    }
}

fn put_field(text: &mut Text, name: &[u8]) -> Result<(), Memory>
    ensures { OnOk result (text.new ≡ text.old ++ field_text name.now) }
{
    if name.is_empty() {
        text.put(b"-")
    } else {
        put_shown(text, name)
    }
}

/// Appends bytes, with a question mark in place of each control character.
fn put_shown(text: &mut Text, bytes: &[u8]) -> Result<(), Memory>
    ensures { OnOk result (text.new ≡ text.old ++ map shown bytes.now) }
{
    for byte in bytes {
        let shown = if *byte < 32 { b'?' } else { *byte };
        text.put(&[shown])?;
    }
    Ok(())
}

fn put_command(text: &mut Text, command: Option<u32>) -> Result<(), Memory>
    ensures { OnOk result (text.new ≡ text.old ++ (codes "fault Form command " ++ place_text command)) }
{
    text.put(b"fault Form command ")?;
    put_place(text, command)
}

fn put_name(text: &mut Text, field: &[u8]) -> Result<(), Memory>
    ensures { OnOk result (text.new ≡ text.old ++ (codes " field " ++ field_text field.now)) }
{
    text.put(b" field ")?;
    put_field(text, field)
}

fn put_why(text: &mut Text, why: Why) -> Result<(), Memory>
    ensures { OnOk result (text.new ≡ text.old ++ (codes " why " ++ (why_text why ++ codes "\n"))) }
{
    text.put(b" why ")?;
    text.put(why_text(why))?;
    text.put(b"\n")
}

fn put_form(text: &mut Text, command: Option<u32>, field: &[u8], why: Why) -> Result<(), Memory>
    ensures { OnOk result (text.new ≡ text.old ++ form_line command field.now why) }
{
    put_command(text, command)?;
    put_name(text, field)?;
    put_why(text, why)
}

/// The line that tells why bytes are no script; none for running out of memory.
pub(crate) fn fault_line(alloc: Global, fault: &ScriptFault) -> Result<Text, Memory>
    ensures { IfOk result (λ text. text ≡ fault_line fault.now) }
{
    let mut text = Text::new(alloc);
    match fault {
        ScriptFault::TooLong => text.put(b"fault TooLong\n")?,
        ScriptFault::Syntax => text.put(b"fault Syntax\n")?,
        ScriptFault::Form {
            command,
            field,
            why,
        } => put_form(&mut text, *command, field.as_slice(), *why)?,
        ScriptFault::Memory => {}
    }
    Ok(text)
}
