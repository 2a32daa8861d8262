// The lighting elements and their light sources: the `convert_*` functions of parser/filter.rs.
#![tactic(auto)]

pub mod diffuse_lighting;
pub mod light_source;
pub mod lighting_color;
pub mod specular_lighting;
