// What two or more replies become that meet on the cable.
ghost use Rattle.rdm_line.specs.Mode.{ModeNumbered};

use refusals::Refusal;

#[derive(Clone, Copy)]
pub enum Mode {
    // 0: nothing that can be read.
    Garble,
    // 1: a bit is set where any reply has it set.
    Or,
    // 2: a bit is set where every reply has it set.
    And,
    // 3: the reply of the lowest key, as if it were alone.
    Lowest,
}

// The mode of a number; refuses a number above 3 (11).
impl TryFrom<u32> for Mode {
    type Error = Refusal;

    ghost try_from_gives = { ModeNumbered };

    fn try_from(number: u32) -> Result<Mode, Refusal> {
        match number {
            0 => Ok(Mode::Garble),
            1 => Ok(Mode::Or),
            2 => Ok(Mode::And),
            3 => Ok(Mode::Lowest),
            _ => Err(Refusal::AboveLimit),
        }
    }
}
