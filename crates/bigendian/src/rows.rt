// Rows of fields, most significant byte first: `put_row` writes a row at the front of bytes, `field` reads one number of any bytes.
// A part that would pass the end of the bytes is cut there, so nothing is asked of a caller.
ghost use Rattle.std.specs.Prelude.{◌≡◌};
ghost use Rattle.bigendian.specs.BigEndian.{word64};
ghost use Rattle.bigendian.specs.Rows.{field_in};
ghost use Rattle.bigendian.specs.Code.PutRow.{put_row};

use crate::{get, put};
use slices::places::part;

// The values in fields of those sizes at the front of d, as long as there are both and a whole field finds room; what follows them stays.
pub fn put_row(d: &mut [u8], sizes: &[usize], values: &[u64])
    ensures { d.new ≡ put_row sizes.now values.now d.old }
{
    let mut at = 0;
    for (size, value) in sizes.iter().zip(values) {
        if d.len() - at < *size {
            return;
        }
        let end = at + *size;
        put(&mut d[at..end], *value);
        at = end;
    }
}

// The number in n bytes from a place on, fewer where the bytes end before; of more than eight bytes, the last eight.
pub fn field(s: &[u8], at: usize, n: usize) -> u64
    ensures { result ≡ word64 (field_in s.now at n) }
{
    get(part(s, at, n))
}
