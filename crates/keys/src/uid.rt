// The unique identifier of an RDM fixture, which is the key of its family.
ghost use Rattle.std.specs.Prelude.{◌+◌, ◌-◌, ◌*◌, ◌^◌, ◌<◌};

// FFFFFFFFFFFF is the broadcast and no key, so it is no value of this type.
#[derive(Clone, Copy, PartialEq, Eq, PartialOrd, Ord)]
pub struct Uid {
    pub manufacturer: u16,
    pub device: u32,
    ghost narrow: { device < 2 ^ 32 },
    ghost key: { manufacturer * 2 ^ 32 + device < 2 ^ 48 - 1 },
}

pub mod family;
pub mod number;
