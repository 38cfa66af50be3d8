// RDM packets, ANSI E1.20: the layout that questions and replies share, and the parameters that they are about.

#![tactic(auto)]

pub mod header;
pub mod packet;
pub mod parameter;
pub mod reading;
pub mod writing;
