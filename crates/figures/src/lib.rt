// Worked figures of every layer, proved of the definitions that the contracts are written by.

#![tactic(auto)]

ghost use Rattle.std.specs.Prelude.{◌≡◌};
ghost use Rattle.figures.specs.Figures.{Figures};

// Answers how many figures are proved.
pub fn figures() -> u8
    ensures count { result ≡ 4 }
    ensures figures { Figures }
{
    4
}

#[cfg(test)]
mod tests;
