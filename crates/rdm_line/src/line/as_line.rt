// The RDM line as a line: what it means is read off its table.
ghost use Rattle.std.specs.Prelude.{◌≡◌};
ghost use Rattle.keys.specs.Uid.{uid_rank};
ghost use Rattle.lines.specs.Rules.{roused, rested, Probed, hush_answer, hushed, query_answer, set_answer, addressed};
ghost use Rattle.rdm_line.specs.Effects.{roused_state, rested_state, hushed_state, addressed_state};
ghost use Rattle.rdm_line.specs.Heard.{answer_number};
ghost use Rattle.rdm_line.specs.Means.{line_means};
ghost use Rattle.rdm_line.specs.Probing.{probe_answer};
ghost use Rattle.rdm_line.specs.State.{state_of};
ghost use Rattle.rdm_line.specs.Meanings.{means_sound};

use crate::asking::TRANSACTION;
use crate::line::RdmLine;
use keys::address::Address;
use keys::range::Range;
use keys::uid::Uid;
use lines::answers::{Footprint, ProbeAnswer};
use lines::line::Line;
use packets::parameter::Parameter;
use rdm::question::{Destination, Question};
use rdm::read_reply::Expected;

impl Line for RdmLine {
    type Key = Uid;

    ghost means = { line_means };

    ghost sound = { λ line. means_sound (state_of line) line.fixtures_sound line.muted_while_shut };

    fn live(&self) -> bool
        ensures { result ≡ (line_means self.now).live }
    {
        self.live // A flag of its own: a line without fixtures has none that could show it.
    }

    fn rouse(&mut self)
        ensures after { line_means self.new ≡ roused (line_means self.old) }
        ensures whole_line { state_of self.new ≡ roused_state (state_of self.old) }
    {
        // Live first: a line that is shut asks nothing.
        self.live = true;
        self.ask(Question::UnMute(Destination::All));
    }

    fn rest(&mut self)
        ensures after { line_means self.new ≡ rested (line_means self.old) }
        ensures whole_line { state_of self.new ≡ rested_state (state_of self.old) }
    {
        // Shut last, for the same reason. A line that was shut sends nothing, and its fixtures are muted already.
        self.ask(Question::Mute(Destination::All));
        self.live = false;
    }

    fn probe(&mut self, range: Range<Uid>) -> ProbeAnswer<Uid>
        ensures same { line_means self.new ≡ line_means self.old }
        ensures answer { Probed uid_rank (line_means self.old) range result }
        ensures whole_line { state_of self.new ≡ state_of self.old }
        ensures exactly { answer_number result ≡ probe_answer (state_of self.old) range }
    {
        // A range that the writer refuses is not sent, so that it is silent.
        self.ask(Question::Branch(range)).branch_answer()
    }

    fn hush(&mut self, key: Uid) -> bool
        ensures answer { result ≡ hush_answer (line_means self.old) key }
        ensures after { line_means self.new ≡ hushed uid_rank (line_means self.old) key }
        ensures whole_line { state_of self.new ≡ hushed_state key (state_of self.old) }
    {
        let expected = Expected::new(Parameter::Mute, TRANSACTION, key);
        self.ask(Question::Mute(Destination::One(key)))
            .is_yes(expected)
    }

    fn query(&mut self, key: Uid) -> Option<Footprint>
        ensures same { line_means self.new ≡ line_means self.old }
        ensures answer { result ≡ query_answer (line_means self.old) key }
        ensures whole_line { state_of self.new ≡ state_of self.old }
    {
        let expected = Expected::new(Parameter::DeviceInfo, TRANSACTION, key);
        self.ask(Question::DeviceInfo(key)).footprint(expected)
    }

    fn set(&mut self, key: Uid, address: Address) -> bool
        ensures answer { result ≡ set_answer 1 512 (line_means self.old) key address }
        ensures after { line_means self.new ≡ addressed uid_rank 1 512 (line_means self.old) key address }
        ensures whole_line { state_of self.new ≡ addressed_state key address (state_of self.old) }
    {
        // An address outside the family is refused by the writer, so that nothing is sent.
        let expected = Expected::new(Parameter::StartAddress, TRANSACTION, key);
        self.ask(Question::StartAddress(key, address))
            .is_yes(expected)
    }
}
