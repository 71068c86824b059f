// A word of 32 bits: FIPS 180-4 §4.1.2.
ghost use Rattle.std.proofs.Common.{rules};
ghost use Rattle.fips.specs.Words.{w32};

use crate::word::{Rounds, Word};

impl Word for u32 {
    ghost width = { w32 };

    ghost value = { λ x. x };

    ghost BYTES = { 4 };

    const BYTES: usize = 4;

    ghost sized = { Prim.search rules };

    fn add(self, y: u32) -> u32 {
        self.wrapping_add(y)
    }

    // Three operations, where the standard's form has four.
    fn ch(self, y: u32, z: u32) -> u32 {
        z ^ (self & (y ^ z))
    }

    // Of the forms with four operations the fastest (docs/BENCHMARKS.md).
    fn maj(self, y: u32, z: u32) -> u32 {
        (y | z) & (self | (y & z))
    }

    fn big0(self) -> u32 {
        self.rotate_right(2) ^ self.rotate_right(13) ^ self.rotate_right(22)
    }

    fn big1(self) -> u32 {
        self.rotate_right(6) ^ self.rotate_right(11) ^ self.rotate_right(25)
    }

    fn small0(self) -> u32 {
        self.rotate_right(7) ^ self.rotate_right(18) ^ (self >> 3)
    }

    fn small1(self) -> u32 {
        self.rotate_right(17) ^ self.rotate_right(19) ^ (self >> 10)
    }

    // LLVM makes it one load and a byte swap.
    fn read(bytes: &[u8]) -> u32 {
        u32::from_be_bytes(*bytes.as_array().unwrap())
    }
}

impl Rounds<64> for u32 {
    ghost count = { Prim.search rules };
}
