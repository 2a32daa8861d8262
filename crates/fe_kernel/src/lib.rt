// feConvolveMatrix: `convert_convolve_matrix` of parser/filter.rs, and a module for each attribute that takes more than reading.
#![tactic(auto)]

pub mod convolve_matrix;
pub mod divisor;
pub mod order;
pub mod target;
