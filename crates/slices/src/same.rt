// Two slices compared: they are the same where they have the same length and the same elements. Of the same length, all are looked at,
// also behind one that differs.
ghost use Rattle.std.specs.Prelude.{◌≡◌};
ghost use Rattle.slices.specs.Tests.{same_by};

pub fn same<T: PartialEq>(a: &[T], b: &[T]) -> bool
    ensures { result ≡ same_by T.eq a.now b.now }
{
    if a.len() != b.len() {
        return false;
    }
    let mut same = true;
    for (x, y) in a.iter().zip(b) {
        same = same & (x == y);
    }
    same
}
