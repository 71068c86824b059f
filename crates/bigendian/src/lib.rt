// Numbers and words to bytes and back, most significant byte first: SPEC, "Specification", under its table of signs.
// `put` and `get` are for one number of any length, `put_words` and `get_words` for words of n bytes that stand one after the other.
#![tactic(auto)]

pub mod rows; // rows.rt: numbers in fields of fixed places

ghost use Rattle.std.specs.Prelude.{◌≡◌, map, ◌+◌, ◌/◌, ◌≤◌, min, length};
ghost use Rattle.bigendian.specs.BigEndian.{be, number, word64};
ghost use Rattle.bigendian.specs.Words.{to_words, with_words};

// The bytes of x, as many as d has: where d is longer than x, zeros stand in front.
pub fn put(d: &mut [u8], x: u64)
    ensures { d.new ≡ be (length d.old) x }
{
    let mut rest = x;
    for i in (0..d.len()).rev() {
        d[i] = (rest % 256) as u8;
        rest /= 256;
    }
}

// The number that the bytes make; of more than eight bytes, the last eight.
pub fn get(s: &[u8]) -> u64
    ensures { result ≡ word64 (number s.now) }
{
    let mut x = 0;
    for b in s {
        // x % 2^56 is what the next byte leaves of x
        x = x % 72057594037927936 * 256 + u64::from(*b);
    }
    x
}

// How many words of n bytes find room in so many bytes, none where n is 0.
fn room(words: usize, bytes: usize, n: usize) -> usize
    ensures { result ≡ min words (bytes / n) }
{
    if n == 0 { 0 } else { words.min(bytes / n) }
}

// The words as n bytes each at the front of d, as many as find room; what follows them stays.
pub fn put_words(d: &mut [u8], words: &[u64], n: usize)
    ensures { d.new ≡ with_words n words.now d.old }
{
    let m = room(words.len(), d.len(), n);
    let mut at = 0;
    for word in &words[..m] {
        let end = at + n;
        put(&mut d[at..end], *word);
        at = end;
    }
}

// Where a part of n bytes ends that starts at a place of so many bytes: behind the last of them where there are fewer.
fn end_of(at: usize, n: usize, len: usize) -> usize
    requires { at ≤ len }
    ensures { result ≡ min (at + n) len }
{
    at + n.min(len - at)
}

// Words of n bytes each from the front of s, as many as d has; where s runs out, of the bytes that are left.
fn cut_words(d: &mut [u64], s: &[u8], n: usize)
    ensures { d.new ≡ map word64 (to_words (length d.old) n s.now) }
{
    let mut at = 0;
    for word in d.iter_mut() {
        let end = end_of(at, n, s.len());
        *word = get(&s[at..end]);
        at = end;
    }
}

// Words of n bytes each from the front of s, as many as d has. Where s runs out, a word is made of the bytes that are left; of more than
// eight bytes a word keeps the last eight. Words that s has whole have a loop of their own, in which no end is looked for: with n known it
// is compiled to whole loads.
pub fn get_words(d: &mut [u64], s: &[u8], n: usize)
    ensures { d.new ≡ map word64 (to_words (length d.old) n s.now) }
{
    let (whole, rest) = d.split_at_mut(room(d.len(), s.len(), n));
    let mut at = 0;
    for word in whole.iter_mut() {
        let next = at + n;
        *word = get(&s[at..next]);
        at = next;
    }
    cut_words(rest, &s[at..], n);
}
