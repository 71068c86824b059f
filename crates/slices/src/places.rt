// Places in a slice: the smaller of two, a part that is cut where the slice ends, and where the rest after whole blocks begins.
ghost use Rattle.std.specs.Prelude.{◌≡◌, ◌*◌, ◌/◌, min};
ghost use Rattle.slices.specs.Parts;

pub fn least(a: usize, b: usize) -> usize
    ensures { result ≡ min a b }
{
    a.min(b)
}

// So many bytes from a place on, as far as the bytes go. They are those of the slice itself, where they lie; of no bytes, its beginning.
pub fn part(s: &[u8], at: usize, n: usize) -> &[u8]
    ensures result_value { result.now ≡ Parts.part s.now at n }
    ensures lies_at { Parts.LiesAt result s.entry at }
{
    let start = least(at, s.len());
    let end = start + least(n, s.len() - start);
    if start == end {
        return &s[..0];
    }
    &s[start..end]
}

// Where the rest of so many elements begins, in blocks of n: behind the whole blocks. There are none of no elements.
pub fn rest_at(len: usize, n: usize) -> usize
    ensures { result ≡ len / n * n }
{
    if n == 0 {
        return 0;
    }
    len - len % n
}
