// The elements that work on colours, a module for each.
#![tactic(auto)]

pub mod blend;
pub mod color_matrix;
pub mod component_transfer;
pub mod composite;
