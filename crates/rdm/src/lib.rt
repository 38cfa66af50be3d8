// RDM, ANSI E1.20: the questions of a controller and the replies of a fixture.

#![tactic(auto)]

pub mod question;
pub mod read_reply;
pub mod received;
pub mod reply;
pub mod reply_as_read;
