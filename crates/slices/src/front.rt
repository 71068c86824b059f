// Writing at the front of an output, as much as there is room for; the rest of it is kept.
ghost use Rattle.std.specs.Prelude.{◌≡◌};
ghost use Rattle.slices.specs.AtFront.{at_front};
ghost use Rattle.slices.specs.Padded.{padded};

pub fn put_front<T: Copy>(out: &mut [T], items: &[T])
    ensures { out.new ≡ at_front items.now out.old }
{
    for i in 0..out.len().min(items.len()) {
        out[i] = items[i];
    }
}

// The bytes with zeros behind them, N in all; of more bytes, the first.
pub fn padded<const N: usize>(bytes: &[u8]) -> [u8; N]
    ensures { result ≡ padded N bytes.now }
{
    let mut room = [0u8; N];
    put_front(&mut room, bytes);
    room
}
