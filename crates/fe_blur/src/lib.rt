// The elements that blur, move and shade a picture, a module for each. `scale` is the size of the object's box in box units, and else 1 by 1.
#![tactic(auto)]

pub mod drop_shadow;
pub mod gaussian_blur;
pub mod offset;
