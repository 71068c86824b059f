// The starting words of an edition: SPEC, "Constants, by rule". They are asked for here, above the block functions, and nowhere below.
ghost use Rattle.std.specs.Prelude.{◌≡◌};
ghost use Rattle.fips.specs.Editions.{start};

// The row of the edition, copied by value; eight zeros where no edition has the number.
pub fn starting_words(edition: u64) -> [u64; 8]
    ensures { result ≡ start edition }
{
    fips::tables::start_row(edition)
}
