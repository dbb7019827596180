//! Words among bytes, least byte first.
ghost use Rattle.std.specs.Prelude.{◌≡◌, ◌+◌, ◌*◌, ◌≤◌, ◌<◌, ◌^◌, ◌++◌, length, take, All};
ghost use Rattle.std.specs.Int.{w32, w64, to_le_bytes};
ghost use Rattle.chdr_words.specs.Field.{half_at, halves_bytes, word_at};

/// The word of 64 bits at a place.
pub fn word_at(bytes: &[u8], at: usize) -> u64
    requires { at + 8 ≤ length bytes.now }
    ensures { result ≡ word_at bytes.now at }
{
    u64::from_le_bytes([
        bytes[at],
        bytes[at + 1],
        bytes[at + 2],
        bytes[at + 3],
        bytes[at + 4],
        bytes[at + 5],
        bytes[at + 6],
        bytes[at + 7],
    ])
}

/// The word of 32 bits at a place.
pub fn half_at(bytes: &[u8], at: usize) -> u32
    requires { at + 4 ≤ length bytes.now }
    ensures { result ≡ half_at bytes.now at }
{
    u32::from_le_bytes([bytes[at], bytes[at + 1], bytes[at + 2], bytes[at + 3]])
}

/// Two words as bytes.
pub fn two_words(a: u64, b: u64) -> [u8; 16]
    ensures first { word_at result 0 ≡ a }
    ensures second { word_at result 8 ≡ b }
{
    let a = a.to_le_bytes();
    let b = b.to_le_bytes();
    [
        a[0], a[1], a[2], a[3], a[4], a[5], a[6], a[7], b[0], b[1], b[2], b[3], b[4], b[5], b[6],
        b[7],
    ]
}

/// Four words as bytes.
pub fn four_words(a: u64, b: u64, c: u64, d: u64) -> [u8; 32]
    ensures first { word_at result 0 ≡ a }
    ensures second { word_at result 8 ≡ b }
    ensures third { word_at result 16 ≡ c }
    ensures fourth { word_at result 24 ≡ d }
{
    let a = a.to_le_bytes();
    let b = b.to_le_bytes();
    let c = c.to_le_bytes();
    let d = d.to_le_bytes();
    [
        a[0], a[1], a[2], a[3], a[4], a[5], a[6], a[7], b[0], b[1], b[2], b[3], b[4], b[5], b[6],
        b[7], c[0], c[1], c[2], c[3], c[4], c[5], c[6], c[7], d[0], d[1], d[2], d[3], d[4], d[5],
        d[6], d[7],
    ]
}

/// Writes a word of 64 bits behind the first `at` bytes, which stay.
pub fn put_word(out: &mut [u8], at: usize, word: u64)
    requires { at + 8 ≤ length out.old }
    ensures { take (at + 8) out.new ≡ take at out.old ++ to_le_bytes w64 word }
{
    out[at..at + 8].copy_from_slice(&word.to_le_bytes());
}

/// Writes a word of 32 bits behind the first `at` bytes, which stay.
pub fn put_half(out: &mut [u8], at: usize, word: u32)
    requires { at + 4 ≤ length out.old }
    ensures { take (at + 4) out.new ≡ take at out.old ++ to_le_bytes w32 word }
{
    out[at..at + 4].copy_from_slice(&word.to_le_bytes());
}

/// Writes words of 32 bits behind the first `at` bytes, which stay.
pub fn put_halves(out: &mut [u8], at: usize, words: &[u32])
    requires { at + 4 * length words.now ≤ length out.old }
    ensures bytes { take (at + 4 * length words.now) out.new
        ≡ take at out.old ++ halves_bytes words.now }
    ensures ranged { All (λ word. word < 2 ^ 32) words.now }
{
    for (k, word) in words.iter().enumerate() {
        put_half(out, at + 4 * k, *word);
    }
}
