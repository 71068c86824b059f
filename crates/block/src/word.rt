// What the block rule asks of a word: the standard's functions on it, FIPS 180-4 §3.2, §4.1.2 and §4.1.3, and how it is read from bytes.
// Here the widths differ; narrow.rt and wide.rt have the two. Ch and Maj are the same in both, but their short forms are the standard's
// below 2^w alone, and only of a u32 or a u64 is it known to be below.
ghost use Rattle.std.specs.Prelude.{◌≡◌, ℕ, ◌%◌, ◌<◌, ◌≤◌, length};
ghost use Rattle.bigendian.specs.BigEndian.{number};
ghost use Rattle.fips.specs.Words.{Width, add, ch, maj, big0, big1, small0, small1};

pub(crate) trait Word: Copy + Default {
    // The standard's width.
    ghost width: { Width };

    // A word as the number that it is.
    ghost value: { Self → ℕ };

    ghost BYTES: { ℕ };

    const BYTES: usize;

    // The sum, modulo 2^w.
    fn add(self, y: Self) -> Self
        ensures { value result ≡ add width (value self) (value y) };

    // y's bit where x has a one, else z's.
    fn ch(self, y: Self, z: Self) -> Self
        ensures { value result ≡ ch width (value self) (value y) (value z) };

    // The bit that two of the three have.
    fn maj(self, y: Self, z: Self) -> Self
        ensures { value result ≡ maj width (value self) (value y) (value z) };

    // Σ0
    fn big0(self) -> Self
        ensures { value result ≡ big0 width (value self) };

    // Σ1
    fn big1(self) -> Self
        ensures { value result ≡ big1 width (value self) };

    // σ0
    fn small0(self) -> Self
        ensures { value result ≡ small0 width (value self) };

    // σ1
    fn small1(self) -> Self
        ensures { value result ≡ small1 width (value self) };

    // A word from its bytes, most significant first.
    fn read(bytes: &[u8]) -> Self
        requires { length bytes.now ≡ width.bytes }
        ensures { value result ≡ number bytes.now };

    ghost sized: { (BYTES ≡ width.bytes) × (0 < BYTES) × (BYTES ≤ 8) };
}

// A word that the standard gives N rounds: as many as a block has words, and then eights.
pub(crate) trait Rounds<const N: usize>: Word {
    ghost count: { (N ≡ Self.width.rounds) × (16 ≤ N) × (N % 8 ≡ 0) };
}
