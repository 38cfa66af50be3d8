// Two bytes that are none of the named frames.
ghost use Rattle.std.specs.Prelude.{◌≡◌, false};
ghost use Rattle.dali.specs.Codes.{named};

#[derive(Clone, Copy, PartialEq, Eq)]
pub struct OtherFrame {
    pub first: u8,
    pub second: u8,
    ghost other: { named first second ≡ false },
}
