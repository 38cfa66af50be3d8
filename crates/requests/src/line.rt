// A request line that is answered.
ghost use Rattle.std.specs.Prelude.{◌≤◌, length};

// The longest line that is read.
pub const LONGEST: usize = 2048;

#[derive(Clone, Copy)]
pub struct Line<'a> {
    pub text: &'a [u8],
    ghost short: { length text.now ≤ 2048 },
}
