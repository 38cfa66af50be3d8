// The random address of a DALI unit, which is the key of its family.
ghost use Rattle.std.specs.Prelude.{◌^◌, ◌<◌};

#[derive(Clone, Copy, PartialEq, Eq, PartialOrd, Ord)]
pub struct RandomAddress {
    pub value: u32,
    ghost narrow: { value < 2 ^ 24 },
}

pub mod family;
pub mod number;
