ghost use Rattle.std.specs.Prelude.{◌≡◌, ◌≢◌, ◌==◌, ◌+◌, ◌-◌, ◌*◌, ◌^◌, ◌≤◌, ◌<◌, ℕ, true, false, if◌then◌else◌, length, replicate, slice_set, IfOk, MatchOption};
ghost use Rattle.std.specs.Int.{bit_at};
ghost use Rattle.fabric_flags.specs.Set.{IsNext, IsNth, NoneFrom, count_set, flag_at, is_on};

use rf_base::Memory;
use std::alloc::Global;
use std::marker::Model;

/// Flags, of which the next set one is found word by word; only `new` takes memory.
#[derive(Debug, Drop)]
pub struct Flags {
    words: Vec<u64>,
    len: usize,
    /// How many are set.
    count: usize,
}

impl Model for Flags {
    ghost use Rattle.std.specs.Prelude.{Bool, List};

    ghost Value = { List Bool };

    ghost use Rattle.fabric_flags.specs.FlagView.{IsSound, view_of};

    ghost view = { view_of };

    ghost invariant = { IsSound };
}

impl Flags {
    /// So many flags, none of them set.
    pub fn new(alloc: Global, len: usize) -> Result<Flags, Memory>
        ensures { IfOk result (λ flags. flags ≡ replicate len false) }
    {
        let words = vec![in alloc; 0u64; len / 64 + 1]?;
        Ok(Flags {
            words,
            len,
            count: 0,
        })
    }

    pub fn len(&self) -> usize
        ensures { result ≡ length self.now }
    {
        self.len
    }

    /// How many flags are set.
    pub fn count(&self) -> usize
        ensures { result ≡ count_set self.now }
    {
        self.count
    }

    /// Whether flag i is set.
    pub fn get(&self, i: usize) -> bool
        requires { i < length self.now }
        ensures { result ≡ flag_at self.now i }
    {
        is_on(self.words.as_slice(), i)
    }

    /// Sets flag i, or clears it.
    pub fn set(&mut self, i: usize, on: bool)
        requires { i < length self.old }
        ensures { self.new ≡ slice_set self.old i on }
    {
        let was = is_on(self.words.as_slice(), i);
        write(self.words.as_mut_slice(), i, on);
        self.count = recount(self.count, was, on);
    }

    /// The first set flag from flag n on.
    pub fn next_from(&self, n: usize) -> Option<usize>
        ensures { MatchOption result (NoneFrom (flag_at self.now) n) (IsNext (flag_at self.now) n) }
    {
        next_on(self.words.as_slice(), n)
    }

    /// The first set flag.
    pub fn first(&self) -> Option<usize>
        ensures { MatchOption result (NoneFrom (flag_at self.now) 0) (IsNext (flag_at self.now) 0) }
    {
        self.next_from(0)
    }

    /// The set flag before which n others are.
    pub fn nth(&self, n: usize) -> Option<usize>
        ensures { MatchOption result (count_set self.now ≤ n) (IsNth self.now n) }
    {
        let _ = self.len();
        let mut at = match self.first() {
            Some(first) => first,
            None => return None,
        };
        for _ in 0..n {
            at = match self.next_from(at + 1) {
                Some(next) => next,
                None => return None,
            };
        }
        Some(at)
    }
}

/// Whether bit i of the words is 1.
fn is_on(words: &[u64], i: usize) -> bool
    requires { i < 64 * length words.now }
    ensures { result ≡ is_on words.now i }
{
    words[i / 64] >> (i % 64) & 1 == 1
}

/// The first bit from bit n on that is 1.
fn next_on(words: &[u64], n: usize) -> Option<usize>
    requires { length words.now ≤ 2 ^ 58 }
    ensures { MatchOption result (NoneFrom (is_on words.now) n) (IsNext (is_on words.now) n) }
{
    let start = n / 64;
    if start >= words.len() {
        return None;
    }
    let rest = words[start] >> (n % 64);
    if rest != 0 {
        return Some(n + rest.trailing_zeros() as usize);
    }
    for k in start + 1..words.len() {
        let word = words[k];
        if word != 0 {
            return Some(64 * k + word.trailing_zeros() as usize);
        }
    }
    None
}

/// Makes bit i of the words 1 or 0.
fn write(words: &mut [u64], i: usize, on: bool)
    requires { i < 64 * length words.old }
    ensures size { length words.new ≡ length words.old }
    ensures here { is_on words.new i ≡ on }
    ensures others { (j : ℕ) → i ≢ j → is_on words.new j ≡ is_on words.old j }
{
    words[i / 64] = with_bit(words[i / 64], i % 64, on);
}

/// The word with bit b made 1 or 0.
fn with_bit(word: u64, b: usize, on: bool) -> u64
    requires { b < 64 }
    ensures here { (bit_at result b == 1) ≡ on }
    ensures others { (c : ℕ) → c < 64 → c ≢ b → bit_at result c ≡ bit_at word c }
{
    if on { word | 1 << b } else { word & !(1 << b) }
}

/// How many flags are set, once one that was set or not is set or not.
fn recount(count: usize, was: bool, on: bool) -> usize
    requires some { was ≡ true → 0 < count }
    requires few { was ≡ false → count < 2 ^ 64 - 1 }
    ensures { result + (if was then 1 else 0) ≡ count + (if on then 1 else 0) }
{
    if was == on {
        count
    } else if on {
        count + 1
    } else {
        count - 1
    }
}
