// DALI, IEC 62386-102: the frames that find units and give them addresses.

#![tactic(auto)]

pub mod frame;
pub mod other_frame;
pub mod reply;
pub mod search;
pub mod short_address;
