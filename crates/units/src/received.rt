// What a controller receives after a frame.
ghost use Rattle.std.specs.Prelude.{◌≡◌, ℕ, List, ◌++◌};
ghost use Rattle.std.specs.Option.{option_to_list};
ghost use Rattle.units.specs.Received.{received, is_nothing};

#[derive(Clone, Copy, PartialEq, Eq)]
pub enum Received {
    // Nobody replied.
    Nothing,
    // One unit replied, with this byte.
    One(u8),
    // Several units replied at once: nothing can be read.
    Several,
}

impl Received {
    // What is received if one more unit replies, or does not.
    pub fn with(self, reply: Option<u8>) -> Received
        ensures { (replies : List ℕ) → self ≡ received replies → result ≡ received (replies ++ option_to_list reply) }
    {
        match (self, reply) {
            (_, None) => self,
            (Received::Nothing, Some(byte)) => Received::One(byte),
            (_, Some(_)) => Received::Several,
        }
    }

    pub fn is_nothing(self) -> bool
        ensures { result ≡ is_nothing self }
    {
        self == Received::Nothing
    }
}
