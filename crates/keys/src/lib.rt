// Families of keys: what a search looks for, and how ranges of keys are halved.

#![tactic(auto)]

pub mod address;
pub mod family;
pub mod order;
pub mod ordered;
pub mod random_address;
pub mod range;
pub mod uid;
