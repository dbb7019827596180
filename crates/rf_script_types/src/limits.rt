//! What a version of the language allows.
ghost use Rattle.std.specs.Prelude.{◌≡◌};
ghost use Rattle.rf_script_types.specs.Limits.{command_limit, node_limit, lose_limit};

/// How many bytes a script has at most.
pub const SCRIPT_LIMIT: usize = 1_048_576;

/// How many words a control request has at most.
pub const WORD_LIMIT: usize = 15;

/// How many acts a duplex has at most.
pub const ACT_LIMIT: usize = 64;

/// How many commands a script has at most.
pub fn command_limit(version: u8) -> usize
    ensures { result ≡ command_limit version }
{
    if version == 2 { 1024 } else { 256 }
}

/// How many nodes a network has at most.
pub fn node_limit(version: u8) -> u32
    ensures { result ≡ node_limit version }
{
    if version == 2 { 256 } else { 64 }
}

/// How many entries a lose list has at most.
pub fn lose_limit(version: u8) -> usize
    ensures { result ≡ lose_limit version }
{
    if version == 2 { 256 } else { 64 }
}
