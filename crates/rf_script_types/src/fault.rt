use chdr_words::Bytes;
use std::fmt;
use thiserror::Error;

/// What is wrong with a field.
#[derive(Clone, Copy, Debug, PartialEq, Eq, Error)]
pub enum Why {
    /// It is required and isn't there.
    #[error("Missing")]
    Missing,
    /// It has another JSON type, or is a list of another length than the one that is wanted.
    #[error("Type")]
    WrongType,
    /// It is outside its range, or isn't one of the words that are listed.
    #[error("Range")]
    Range,
    /// The capacity, frequency and greatest size of a stream don't fit each other.
    #[error("Flow")]
    Flow,
    /// It is no field of this command.
    #[error("Unknown")]
    Unknown,
    /// It is no good name of a node, or another node has it.
    #[error("Name")]
    Name,
    /// No node has this name.
    #[error("NoName")]
    NoName,
}

/// Why bytes are no script.
#[derive(Debug, Drop, PartialEq, Eq, Error)]
pub enum ScriptFault {
    /// There are more than 1,048,576 of them.
    #[error("fault TooLong")]
    TooLong,
    /// They are no JSON text.
    #[error("fault Syntax")]
    Syntax,
    /// The first fault of the JSON value: the number of the command, none for the script itself, and
    /// the name of the field, empty for the command itself.
    #[error("fault Form command {} field {} why {why}", Place(.command), Spelled(.field.as_slice()))]
    Form {
        command: Option<u32>,
        field: Bytes,
        why: Why,
    },
    #[error("out of memory")]
    Memory,
}

/// The number of a command, or the script itself.
#[derive(Clone, Copy)]
struct Place<'a>(&'a Option<u32>);

impl fmt::Display for Place<'_> {
    fn fmt<W: fmt::Write>(&self, f: &mut fmt::Formatter<W>) -> fmt::Result {
        match self.0 {
            Some(number) => write!(f, "{number}"),
            None => f.write_str("-"),
        }
    }
}

/// The name of a field, in which control characters don't show.
#[derive(Clone, Copy)]
struct Spelled<'a>(&'a [u8]);

impl fmt::Display for Spelled<'_> {
    fn fmt<W: fmt::Write>(&self, f: &mut fmt::Formatter<W>) -> fmt::Result {
        if self.0.is_empty() {
            return f.write_str("-");
        }
        match str::from_utf8(self.0) {
            Ok(text) => {
                for c in text.chars() {
                    f.write_char(if c < ' ' { '?' } else { c })?;
                }
                Ok(())
            }
            Err(_) => f.write_str("?"),
        }
    }
}
