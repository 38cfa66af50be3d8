// A question that a line asks its fixtures.
ghost use Rattle.std.specs.Prelude.{◌≡◌};
ghost use Rattle.rdm_line.specs.Cable.{signal_on};
ghost use Rattle.rdm_line.specs.Asking.{line_asked, line_replies};
ghost use Rattle.rdm_line.specs.State.{state_of};

use crate::asking::ask;
use crate::cable::Cable;
use crate::line::RdmLine;
use rdm::question::Question;

impl RdmLine {
    // Puts a question to every fitted fixture and answers what is then on the cable. A line that is shut asks nothing, and
    // its cable stays quiet.
    pub(super) fn ask(&mut self, question: Question) -> Cable
        ensures state { state_of self.new ≡ line_asked question (state_of self.old) }
        ensures signal { signal_on result ≡ line_replies question (state_of self.old) }
    {
        if !self.live {
            return Cable::Quiet;
        }
        ask(&mut self.fixtures[0..self.count], self.mode, question)
    }
}
