//! The program `rfnoc`: its one call over standard input and standard output, with four register banks.
#![tactic(auto)]

use block_registers::{Banks, PlainBank};
use rf_base::{Items, Memory};
use rf_outside::{StdSink, StdSource};
use rfnoc_cli::Books;
use std::alloc::Global;
use std::process::ExitCode;
use std::{env, io};

/// How many banks there are, from 0 on.
const BANKS: u16 = 4;

/// How many words a bank has.
const WORDS: usize = 16;

/// Word 0 of bank 0; that of bank k is k more.
const FIRST_WORD: u32 = 0x5246_0000;

fn main(rt: HostRuntime) -> ExitCode {
    let status = match words(&rt) {
        Ok(words) => perform(&rt, words.as_slice()).unwrap_or(5),
        Err(error) => match error.kind() {
            io::ErrorKind::OutOfMemory => 5,
            _ => 2,
        },
    };
    say(&rt, status);
    ExitCode::from(status)
}

/// The arguments behind the program's name.
fn words(rt: &HostRuntime) -> io::Result<Vec<String>> {
    let mut words = Vec::new(rt.alloc());
    for word in env::args(rt)?.skip(1) {
        words.push(word)?;
    }
    Ok(words)
}

/// Performs what the words ask for, over the banks.
fn perform(rt: &HostRuntime, words: &[String]) -> Result<u8, Memory> {
    let mut src = StdSource::new(rt.stdin());
    let mut out = StdSink::new(rt.stdout());
    let mut banks = Banks::new(rt.alloc())?;
    for number in 0..BANKS {
        let bank = bank(rt.alloc(), FIRST_WORD + number as u32)?;
        let _before = banks.load(number, Box::new(rt.alloc(), bank)?);
    }
    let mut books = Books {
        list: Items::new(rt.alloc()),
    };
    Ok(rfnoc_cli::rfnoc(
        rt.alloc(),
        words,
        &mut src,
        &mut out,
        &mut banks,
        &mut books,
    ))
}

/// A bank whose first word is this one and can't be written; the others are 0, and can.
fn bank(alloc: Global, first: u32) -> Result<PlainBank, Memory> {
    let mut words = [0u32; WORDS];
    let mut masks = [u32::MAX; WORDS];
    words[0] = first;
    masks[0] = 0;
    let words = Items::from_vec(Vec::from_array(alloc, words)?);
    let masks = Items::from_vec(Vec::from_array(alloc, masks)?);
    Ok(PlainBank::new(words, masks))
}

/// Says on standard error why nothing, or not all, was written.
fn say(rt: &HostRuntime, status: u8) {
    let fault = match status {
        2 => "usage",
        3 => "read fault",
        4 => "write fault",
        5 => "memory",
        _ => return,
    };
    // The status is told whether or not this line can be written.
    let _written = eprintln!(rt; "rfnoc: {fault}");
}
