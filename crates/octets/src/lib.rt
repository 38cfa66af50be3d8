// Bytes in lent buffers: writing them, numbers in them, and their sum.

#![tactic(auto)]

pub mod buffer;
pub mod checksum;
pub mod numbers;
pub mod writer;
