// The length limit: SPEC, "Limits". Nothing else compares a length with it.
ghost use Rattle.std.specs.Prelude.{◌≡◌};
ghost use Rattle.dwsha2.specs.Limit.{too_long};

// House: at most 2^40 bytes before the closing bits.
const LIMIT: u64 = 0x100_0000_0000;

// Whether n bytes more would pass the limit of an edition's message, of which `count` bytes came. No sum is made: it might not fit a word.
pub fn too_long(edition: u64, count: u64, n: usize) -> bool
    ensures { result ≡ too_long edition count n }
{
    if LIMIT < count {
        return true;
    }
    LIMIT - count < n as u64
}
