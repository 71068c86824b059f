// Lines of text as test vectors have them: fields between single spaces, decimal numbers, bytes in hexadecimal.
// Every function is total; what is no number or no hexadecimal is said to be none.
#![tactic(auto)]

ghost use Rattle.std.specs.Prelude.{◌≡◌, ◌++◌, suc, ◌/◌, ◌≤◌, min, length, take, drop, unwrap_or, Some, codes, decimal};
ghost use Rattle.slices.specs.Parts.{LiesAt};
ghost use Rattle.hexlines.specs.Fields.{place, first_field, other_fields};
ghost use Rattle.hexlines.specs.Digits.{digit_of, byte_of, is_hex, bytes_of, size_within, decimal_of};
ghost use Rattle.hexlines.specs.Count.{counted};

use slices::places::{least, part};
use std::fmt;

// Where a byte first stands; the length where it stands nowhere.
pub fn find(s: &[u8], b: u8) -> usize
    ensures { (result ≡ place b s.now) × (result ≤ length s.now) × (result ≡ length (take result s.now)) }
{
    s.iter().position(|x| *x == b).unwrap_or(s.len())
}

// What stands before the first space.
pub fn first_field(s: &[u8]) -> &[u8]
    ensures result_value { result.now ≡ first_field s.now }
    ensures lies_at { LiesAt result s.entry 0 }
{
    part(s, 0, find(s, b' '))
}

// What stands after the first space.
pub fn other_fields(s: &[u8]) -> &[u8]
    ensures result_value { result.now ≡ other_fields s.now }
    ensures lies_at { LiesAt result s.entry (suc (place 32 s.now)) }
{
    part(s, find(s, b' ') + 1, s.len())
}

// The value of a hexadecimal digit in lower case. Any other byte has none.
#[tactic(auto, unfolding(crate::specs::Digits::digit_of))]
pub fn digit(c: u8) -> Option<u8>
    ensures { result ≡ digit_of c }
{
    match c {
        b'0'..=b'9' => Some(c - b'0'),
        b'a'..=b'f' => Some(c - b'a' + 10),
        _ => None,
    }
}

// The byte of two digits. What is no digit counts as 0.
#[tactic(auto, using(crate::proofs::Digits::digit_small))]
fn byte(high: u8, low: u8) -> u8
    ensures { result ≡ byte_of high low }
{
    digit(high).unwrap_or(0) * 16 + digit(low).unwrap_or(0)
}

// Whether the text is bytes in hexadecimal: digits alone, and two for each byte.
pub fn is_hex(s: &[u8]) -> bool
    ensures { result ≡ is_hex s.now }
{
    s.iter().all(|c| digit(*c).is_some()) && s.len() % 2 == 0
}

// The bytes of the text at the front of d, as many as there is room for, and how many they are; the rest of d is kept.
pub fn unhex(s: &[u8], d: &mut [u8]) -> usize
    ensures value { result ≡ min (length s.now / 2) (length d.old) }
    ensures d_after { d.new ≡ bytes_of s.now result ++ drop result d.old }
{
    let n = least(s.len() / 2, d.len());
    for i in 0..n {
        d[i] = byte(s[2 * i], s[2 * i + 1]);
    }
    n
}

// The bytes of the text at the front of d, and how many they are: none where it is no hexadecimal or there is no room for all.
pub fn unhex_all(s: &[u8], d: &mut [u8]) -> Option<usize>
    ensures value { result ≡ size_within (length d.old) s.now }
    ensures d_after { d.new ≡ bytes_of s.now (unwrap_or result 0) ++ drop (unwrap_or result 0) d.old }
{
    if !is_hex(s) || d.len() < s.len() / 2 {
        return None;
    }
    Some(unhex(s, d))
}

// The number that decimal digits make; of numbers over 10^13 it says that they are none.
pub fn decimal(s: &[u8]) -> Option<u64>
    ensures { result ≡ decimal_of s.now }
{
    if s.is_empty() {
        return None;
    }
    let mut x: u64 = 0;
    for c in s {
        let d = digit(*c)?;
        if 9 < d || 1_000_000_000_000 < x {
            return None;
        }
        x = x * 10 + u64::from(d);
    }
    Some(x)
}

// How many lines were judged, and how many of them hold.
#[derive(Clone, Copy, Debug, Default, PartialEq, Eq)]
pub struct Tally {
    pub lines: u64,
    pub passed: u64,
}

impl Tally {
    // Counts a line.
    pub fn count(&mut self, holds: bool)
        ensures { self.new ≡ counted self.old holds }
    {
        self.lines = self.lines.wrapping_add(1);
        self.passed = self.passed.wrapping_add(u64::from(holds));
    }
}

impl fmt::Display for Tally {
    ghost output = { λ t. Some (decimal t.passed ++ codes " of " ++ decimal t.lines) };

    fn fmt<W: fmt::Write>(&self, f: &mut fmt::Formatter<W>) -> fmt::Result {
        let passed = self.passed;
        let lines = self.lines;
        write!(f, "{passed} of {lines}")
    }
}
