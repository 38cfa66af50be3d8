// Whether a list of numbers has one of them twice: what every line refuses of the keys that it is made with.
ghost use Rattle.std.specs.Prelude.{◌≡◌};
ghost use Rattle.lines.specs.Twice.{has_twice};

pub fn has_twice(numbers: &[u64]) -> bool
    ensures { result ≡ has_twice numbers.now }
{
    let mut rest = numbers;
    while let Some((number, behind)) = rest.split_first() {
        if behind.contains(number) {
            return true;
        }
        rest = behind;
    }
    false
}
