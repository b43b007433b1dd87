// Two books side by side: in how many of their fields they differ.
#![tactic(auto, using(crate::proofs::Comparing::one_number))]

pub mod electric_fields;
mod fields;
pub mod steam_fields;
