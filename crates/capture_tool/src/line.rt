//! The line of a packet.
//!
//! Rule: docs/scripts-and-reports.md, "Listing and check".
ghost use Rattle.std.specs.Prelude.{◌≡◌, ◌<◌, ◌^◌, ◌++◌, codes, decimal, length, OnOk};
ghost use Rattle.capture_tool.specs.Names.{◌&◌, cmd_op_text, ctrl_op_text, ctrl_status_text, status_code_text};
ghost use Rattle.capture_tool.specs.Listing.{access_text, ack_text, body_text, command_text, control_text, flags_text, head_text, line_of, management_text, op_text, ops_in, ops_of, ports_text, samples_text, sort_text, status_text, time_text, words_text};

use crate::names::{put_cmd_op, put_ctrl_op, put_ctrl_status, put_status_code};
use chdr_packets::{Body, Packet};
use chdr_stream::Placed;
use chdr_words::{Command, Control, Management, Status, op_count};
use rf_base::Memory;
use rf_outside::Text;

fn sort_start(body: &Body) -> &'static [u8]
    ensures { result.now ≡ sort_text body.now & codes " vc " }
{
    match body {
        Body::Samples { .. } => b" data vc ",
        Body::Status(_) => b" status vc ",
        Body::Command(_) => b" command vc ",
        Body::Control(_) => b" control vc ",
        Body::Management(_) => b" management vc ",
    }
}

fn flags_start(eob: bool, eov: bool) -> &'static [u8]
    ensures { result.now ≡ flags_text eob eov & codes " seq " }
{
    match (eob, eov) {
        (false, false) => b" eob 0 eov 0 seq ",
        (false, true) => b" eob 0 eov 1 seq ",
        (true, false) => b" eob 1 eov 0 seq ",
        (true, true) => b" eob 1 eov 1 seq ",
    }
}

fn put_head(out: &mut Text, packet: &Packet) -> Result<(), Memory>
    ensures { OnOk result (out.new ≡ out.old ++ head_text packet.now) }
{
    out.put_field(sort_start(&packet.body), packet.vc as u64)?;
    let flags = flags_start(packet.eob, packet.eov);
    out.put_field(flags, packet.seq as u64)?;
    let words = packet.mdata.len() as u64;
    out.put_pair(b" dst ", packet.dst.0 as u64, b" meta ", words)
}

fn put_time(out: &mut Text, time: Option<u64>) -> Result<(), Memory>
    ensures { OnOk result (out.new ≡ out.old ++ (codes " time " & time_text time)) }
{
    match time {
        None => out.put(b" time -"),
        Some(time) => out.put_field(b" time ", time),
    }
}

fn put_status_start(out: &mut Text, status: &Status) -> Result<(), Memory>
    ensures { OnOk result (out.new ≡ out.old ++
        (codes " code " & status_code_text status.now.code
        & codes " src " & decimal status.now.src.0)) }
{
    out.put(b" code ")?;
    put_status_code(out, status.code)?;
    out.put_field(b" src ", status.src.0 as u64)
}

fn put_status(out: &mut Text, status: &Status) -> Result<(), Memory>
    ensures { OnOk result (out.new ≡ out.old ++ status_text status.now) }
{
    put_status_start(out, status)?;
    let packets = status.cap_packets as u64;
    out.put_pair(b" cap ", status.cap_bytes, b"/", packets)?;
    out.put_pair(b" got ", status.got_bytes, b"/", status.got_packets)?;
    let buffer = status.buffer as u64;
    out.put_pair(b" info ", status.info, b" buffer ", buffer)
}

fn put_command_op(out: &mut Text, command: &Command) -> Result<(), Memory>
    ensures { OnOk result (out.new ≡ out.old ++
        (codes " op " & cmd_op_text command.now.op)) }
{
    out.put(b" op ")?;
    put_cmd_op(out, command.op)
}

fn put_command(out: &mut Text, command: &Command) -> Result<(), Memory>
    ensures { OnOk result (out.new ≡ out.old ++ command_text command.now) }
{
    put_command_op(out, command)?;
    let op_data = command.op_data as u64;
    out.put_pair(b" src ", command.src.0 as u64, b" data ", op_data)?;
    out.put_pair(b" packets ", command.packets, b" bytes ", command.bytes)
}

fn ack_word(ack: bool) -> &'static [u8]
    ensures { result.now ≡ ack_text ack }
{
    if ack { b" ack" } else { b" req" }
}

fn put_ports(out: &mut Text, control: &Control) -> Result<(), Memory>
    ensures { OnOk result (out.new ≡ out.old ++ ports_text control.now) }
{
    out.put(ack_word(control.ack))?;
    let seq = control.seq as u64;
    out.put_pair(b" src ", control.src.0 as u64, b" seq ", seq)?;
    let dst_port = control.dst_port as u64;
    out.put_pair(b" ports ", control.src_port as u64, b">", dst_port)
}

fn put_control_op(out: &mut Text, control: &Control) -> Result<(), Memory>
    ensures { OnOk result (out.new ≡ out.old ++
        (codes " op " & ctrl_op_text control.now.op)) }
{
    out.put(b" op ")?;
    put_ctrl_op(out, control.op)
}

fn put_control_status(out: &mut Text, control: &Control) -> Result<(), Memory>
    ensures { OnOk result (out.new ≡ out.old ++
        (codes " status " & ctrl_status_text control.now.status)) }
{
    out.put(b" status ")?;
    put_ctrl_status(out, control.status)
}

fn put_op(out: &mut Text, control: &Control) -> Result<(), Memory>
    ensures { OnOk result (out.new ≡ out.old ++ op_text control.now) }
{
    put_time(out, control.time)?;
    put_control_op(out, control)?;
    put_control_status(out, control)
}

fn put_words(out: &mut Text, words: &[u32]) -> Result<(), Memory>
    ensures { OnOk result (out.new ≡ out.old ++ words_text words.now) }
{
    for word in words {
        out.put_field(b" ", *word as u64)?;
    }
    Ok(())
}

fn put_access(out: &mut Text, control: &Control) -> Result<(), Memory>
    ensures { OnOk result (out.new ≡ out.old ++ access_text control.now) }
{
    let addr = control.addr as u64;
    out.put_pair(b" enables ", control.enables as u64, b" addr ", addr)?;
    out.put(b" words")?;
    put_words(out, control.words.as_slice())
}

fn put_control(out: &mut Text, control: &Control) -> Result<(), Memory>
    ensures { OnOk result (out.new ≡ out.old ++ control_text control.now) }
{
    put_ports(out, control)?;
    put_op(out, control)?;
    put_access(out, control)
}

fn put_management(out: &mut Text, management: &Management) -> Result<(), Memory>
    requires { ops_in management.now < 2 ^ 64 }
    ensures { OnOk result (out.new ≡ out.old ++ management_text management.now) }
{
    let version = management.version as u64;
    out.put_pair(b" src ", management.src.0 as u64, b" version ", version)?;
    let hops = management.hops.len() as u64;
    out.put_pair(b" width ", management.width as u64, b" hops ", hops)?;
    out.put_field(b" ops ", op_count(management.hops.as_slice()) as u64)
}

fn put_samples(out: &mut Text, time: Option<u64>, bytes: &[u8]) -> Result<(), Memory>
    ensures { OnOk result (out.new ≡ out.old ++ samples_text time bytes.now) }
{
    put_time(out, time)?;
    out.put_field(b" bytes ", bytes.len() as u64)
}

fn put_body(out: &mut Text, body: &Body) -> Result<(), Memory>
    requires { ops_of body.now < 2 ^ 64 }
    ensures { OnOk result (out.new ≡ out.old ++ body_text body.now) }
{
    match body {
        Body::Samples { time, payload } => put_samples(out, *time, payload.as_slice()),
        Body::Status(status) => put_status(out, status),
        Body::Command(command) => put_command(out, command),
        Body::Control(control) => put_control(out, control),
        Body::Management(management) => put_management(out, management),
    }
}

/// Appends the line of a packet.
#[tactic(auto, unfolding(crate::specs::Listing::line_of))]
pub fn put_line(out: &mut Text, placed: &Placed) -> Result<(), Memory>
    requires { ops_of placed.now.packet.body < 2 ^ 64 }
    ensures { OnOk result (out.new ≡ out.old ++ line_of placed.now) }
{
    out.put_number(placed.at)?;
    put_head(out, &placed.packet)?;
    put_body(out, &placed.packet.body)?;
    out.put(b"\n")
}
