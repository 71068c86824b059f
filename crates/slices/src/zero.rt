// Slices that are all zero: whether they are, as of any other element, and made so.
ghost use Rattle.std.specs.Prelude.{◌≡◌, length, replicate};
ghost use Rattle.slices.specs.Tests.{every, all_zero};

// All the items are this one. Every item is looked at: a loop with one way out is compiled to wide instructions.
pub fn all_are<T: PartialEq + Copy>(items: &[T], x: T) -> bool
    ensures { result ≡ every (λ y. T.eq y x) items.now }
{
    let mut all = true;
    for y in items {
        all = all & (*y == x);
    }
    all
}

// All the words are zero. The first that is not ends the search: with a taken bay it is the first of all.
pub fn words_zero(words: &[u64]) -> bool
    ensures { result ≡ all_zero words.now }
{
    words.iter().all(|word| *word == 0)
}

pub fn clear(words: &mut [u64])
    ensures { words.new ≡ replicate (length words.old) 0 }
{
    words.fill(0);
}
