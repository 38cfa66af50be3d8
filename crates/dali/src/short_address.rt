// The address of a DALI unit: a number from 0 to 63.
ghost use Rattle.std.specs.Prelude.{◌<◌};

#[derive(Clone, Copy, PartialEq, Eq)]
pub struct ShortAddress {
    pub value: u8,
    ghost narrow: { value < 64 },
}

pub mod codes;
