// What is read off the cable.
ghost use Rattle.std.specs.Prelude.{◌≡◌};
ghost use Rattle.std.specs.Option.{option_map};
ghost use Rattle.rdm_line.specs.Cable.{signal_on};
ghost use Rattle.rdm_line.specs.Heard.{answer_number, branch_heard, reply_data, reply_heard, yes_heard, footprint_heard};

use crate::cable::Cable;
use branch::read_branch_reply;
use keys::uid::Uid;
use lines::answers::{Footprint, ProbeAnswer};
use rdm::read_reply::{Expected, read_device_info, read_reply};
use rdm::reply::Response;
use rdm::reply_as_read::ReadReply;

impl Cable {
    // The answer to a branch question. What does not read as the reply of a key is garbled.
    pub fn branch_answer(&self) -> ProbeAnswer<Uid>
        ensures { answer_number result ≡ branch_heard (signal_on self.now) }
    {
        match self {
            Cable::Quiet => ProbeAnswer::Silent,
            Cable::Noise => ProbeAnswer::Garbled,
            Cable::Carries(sent) => read_branch_reply(sent.message.as_slice()).map_or(
                ProbeAnswer::Garbled,
                ProbeAnswer::Clear,
            ),
        }
    }

    // The reply that came from whom it was expected.
    fn reply(&self, expected: Expected) -> Option<ReadReply<'_>>
        ensures { option_map reply_data result ≡ reply_heard expected (signal_on self.now) }
    {
        match self {
            Cable::Carries(sent) => read_reply(expected, sent.message.as_slice()).ok(),
            Cable::Quiet | Cable::Noise => None,
        }
    }

    // Whether a yes came from whom it was expected.
    pub fn is_yes(&self, expected: Expected) -> bool
        ensures { result ≡ yes_heard expected (signal_on self.now) }
    {
        self.reply(expected)
            .is_some_and(|reply| reply.response == Response::Ack)
    }

    // The width and the address that a fixture told, if the reply came from whom it was expected.
    pub fn footprint(&self, expected: Expected) -> Option<Footprint>
        ensures { result ≡ footprint_heard expected (signal_on self.now) }
    {
        let info = read_device_info(self.reply(expected)?.payload)?;
        Some(Footprint {
            width: info.width,
            address: info.address,
        })
    }
}
