// Which of two names comes first in the order of a list: SPEC, "Digest list".
ghost use Rattle.std.specs.Prelude.{◌≡◌};
ghost use Rattle.lists.specs.Order;

// The lesser byte decides at the first difference; without one, the name that ends first is the lesser. The library's `a < b` says the
// same, and takes a third more time where names end differently: a put reads every name of the list.
pub fn before(a: &[u8], b: &[u8]) -> bool
    ensures { result ≡ Order.before a.now b.now }
{
    for i in 0..a.len().min(b.len()) {
        if a[i] != b[i] {
            return a[i] < b[i];
        }
    }
    a.len() < b.len()
}
