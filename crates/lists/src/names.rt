// Which names a list may have: SPEC, "Digest list".
ghost use Rattle.std.specs.Prelude.{◌≡◌};
ghost use Rattle.std.specs.List.{list_all};
ghost use Rattle.lists.specs.Lists.{in_name, name_allowed};

// House: the longest name.
pub const LONGEST: usize = 64;

fn in_name(b: u8) -> bool
    ensures { result ≡ in_name b }
{
    (0x21..=0x7e).contains(&b)
}

fn all_in_name(name: &[u8]) -> bool
    ensures { result ≡ list_all in_name name.now }
{
    name.iter().all(|b| in_name(*b))
}

pub fn allowed(name: &[u8]) -> bool
    ensures { result ≡ name_allowed name.now }
{
    1 <= name.len() && name.len() <= LONGEST && all_in_name(name)
}
