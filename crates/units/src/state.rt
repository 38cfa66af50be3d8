// Whether a unit takes part in a search.
ghost use Rattle.std.specs.Prelude.{◌≡◌};
ghost use Rattle.units.specs.State.{is_enabled, is_disabled};

#[derive(Clone, Copy, PartialEq, Eq)]
pub enum State {
    // It takes no part: only A500, sent twice, reaches it.
    Disabled,
    // It compares, and can be withdrawn.
    Enabled,
    // It was found: it compares no more, but takes an address and tells it.
    Withdrawn,
}

impl State {
    pub fn is_enabled(self) -> bool
        ensures { result ≡ is_enabled self }
    {
        self == State::Enabled
    }

    pub fn is_disabled(self) -> bool
        ensures { result ≡ is_disabled self }
    {
        self == State::Disabled
    }
}
