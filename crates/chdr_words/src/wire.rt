ghost use Rattle.std.specs.Prelude.{◌≡◌};
ghost use Rattle.chdr_words.specs.Wire.{wire_size_of};

/// The bytes that a packet of this Length takes on a link: Length rounded up to a multiple of 8.
///
/// Rule: docs/wire-format.md, "Packets".
pub fn wire_size(length: u16) -> u32
    ensures { result ≡ wire_size_of length }
{
    (length as u32 + 7) / 8 * 8
}
