// Two hosts: one that knows the names on a page of columns, and a fence around any host.
#![tactic(auto)]

pub mod fence;
pub mod names;
mod walk;
