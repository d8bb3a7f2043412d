// What the program of vectors says of each call, in words, and what its script does to bytes; no function here makes a call.
#![tactic(auto)]

pub mod calls;
pub mod compared;
pub mod counted;
pub mod damaged;
pub mod figured;
pub mod forged;
pub mod harmed;
pub mod moving;
pub mod partners;
pub mod several;
