// The closing byte and its bits, and the length in bits: SPEC, "Padding".
ghost use Rattle.std.specs.Prelude.{◌≡◌, ◌+◌, ◌*◌, ◌%◌, ◌^◌, ◌≤◌};
ghost use Rattle.bigendian.specs.BigEndian.{be};
ghost use Rattle.fips.specs.Code.ByteForm.{closing_byte};
ghost use Rattle.dwsha2.specs.Closing.{closing_fits};

// 2^k for a k of at most 8.
fn power(k: u64) -> u64
    requires { k ≤ 8 }
    ensures { result ≡ 2 ^ k }
{
    1 << k
}

// Less than a byte of closing bits, and only zeros behind them.
pub fn closing_fits(closing: u8, bits: u64) -> bool
    ensures { result ≡ closing_fits closing bits }
{
    if 7 < bits {
        return false;
    }
    (closing as u64) % power(8 - bits) == 0
}

// The closing byte as it is hashed: its upper bits, a 1 bit, zeros. Bits count modulo 8.
pub fn closing_byte(closing: u8, bits: u64) -> u8
    ensures { result ≡ closing_byte closing (bits % 8) }
{
    let count = bits % 8;
    let unit = power(8 - count);
    let one = power(7 - count);
    ((closing as u64) / unit * unit + one) as u8
}

// The length in bits as two words of 64 bits: that of a count of bytes and of closing bits.
pub fn length_field(count: u64, bits: u64) -> [u8; 16]
    ensures { result ≡ be 16 (8 * count + bits % 8) }
{
    let words = [
        count / 0x2000_0000_0000_0000,
        count % 0x2000_0000_0000_0000 * 8 + bits % 8,
    ];
    let mut field = [0u8; 16];
    bigendian::put_words(&mut field, &words, 8);
    field
}
