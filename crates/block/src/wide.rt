// A word of 64 bits: FIPS 180-4 §4.1.3.
ghost use Rattle.std.proofs.Common.{rules};
ghost use Rattle.fips.specs.Words.{w64};

use crate::word::{Rounds, Word};

impl Word for u64 {
    ghost width = { w64 };

    ghost value = { λ x. x };

    ghost BYTES = { 8 };

    const BYTES: usize = 8;

    ghost sized = { Prim.search rules };

    fn add(self, y: u64) -> u64 {
        self.wrapping_add(y)
    }

    // Three operations, where the standard's form has four.
    fn ch(self, y: u64, z: u64) -> u64 {
        z ^ (self & (y ^ z))
    }

    // Of the forms with four operations the fastest (docs/BENCHMARKS.md).
    fn maj(self, y: u64, z: u64) -> u64 {
        (y | z) & (self | (y & z))
    }

    fn big0(self) -> u64 {
        self.rotate_right(28) ^ self.rotate_right(34) ^ self.rotate_right(39)
    }

    fn big1(self) -> u64 {
        self.rotate_right(14) ^ self.rotate_right(18) ^ self.rotate_right(41)
    }

    fn small0(self) -> u64 {
        self.rotate_right(1) ^ self.rotate_right(8) ^ (self >> 7)
    }

    fn small1(self) -> u64 {
        self.rotate_right(19) ^ self.rotate_right(61) ^ (self >> 6)
    }

    // LLVM makes it one load and a byte swap.
    fn read(bytes: &[u8]) -> u64 {
        u64::from_be_bytes(*bytes.as_array().unwrap())
    }
}

impl Rounds<80> for u64 {
    ghost count = { Prim.search rules };
}
