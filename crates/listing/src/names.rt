// Names that come one behind the other, each ended by a zero byte. By `names-back` they are the names that were written so.
ghost use Rattle.std.specs.Prelude.{◌≡◌, ◌≤◌, length, drop};
ghost use Rattle.slices.specs.Parts.{LiesAt};
ghost use Rattle.listing.specs.Names.{before_zero, behind_zero, name_in, name_place, zeros, ended};

use slices::places::part;

// How many bytes stand before the first zero byte; all of them where there is none.
fn before_zero(bytes: &[u8]) -> usize
    ensures { (result ≡ before_zero bytes.now) × (result ≤ length bytes.now) }
{
    bytes.iter().position(|b| *b == 0).unwrap_or(bytes.len())
}

// Where the next name begins, for one that begins at a place: behind its zero byte, or at the end.
fn behind_zero(input: &[u8], at: usize) -> usize
    requires { at ≤ length input.now }
    ensures { (result ≤ length input.now) × (drop result input.now ≡ behind_zero (drop at input.now)) }
{
    let end = at + before_zero(&input[at..]);
    (end + 1).min(input.len())
}

// How many names there are.
pub fn count(input: &[u8]) -> usize
    ensures { result ≡ zeros input.now }
{
    input.iter().filter(|b| **b == 0).count()
}

// The name of that number, counted from 0, where it stands. Behind the last one it is what no zero byte ends, and then it is empty.
pub fn name(input: &[u8], i: usize) -> &[u8]
    ensures result_value { result.now ≡ name_in i input.now }
    ensures lies_at { LiesAt result input.entry (name_place i input.now) }
{
    let mut at = 0;
    for _ in 0..i {
        at = behind_zero(input, at);
    }
    part(input, at, before_zero(&input[at..]))
}

// Whether every name is ended.
#[tactic(auto, unfolding(crate::specs::Names::ended))]
pub fn all_ended(input: &[u8]) -> bool
    ensures { result ≡ ended input.now }
{
    matches!(input.last(), None | Some(0))
}
