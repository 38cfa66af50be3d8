// DALI units on their bus: what each of them does on a frame, and what the controller hears of it.

#![tactic(auto)]

pub mod bus;
pub mod received;
pub mod search_address;
pub mod send;
pub mod state;
pub mod unit;
