// The reading of an expression: one loop over explicit frames, equal to the definition by recursive descent.
#![tactic(auto)]

pub mod frames;
pub mod machine;
mod moves;
