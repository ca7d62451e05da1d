// Lists in which a number stands twice.
ghost use Rattle.std.specs.Prelude.{◌≡◌};
ghost use Rattle.slots.specs.Shuffle.{has_repeat};

// Whether a number stands twice in the list.
pub fn has_repeat(list: &[u16]) -> bool
    ensures { result ≡ has_repeat list.now }
{
    list.iter()
        .enumerate()
        .any(|(i, number)| list[i + 1..].contains(number))
}
