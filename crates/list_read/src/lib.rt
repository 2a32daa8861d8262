// A reader of lists from any bytes, and the writer, each the inverse of the other. No code: crate `list_layout` is proved against it.
#![tactic(auto)]

// In form 1 a reference is a name, in form 2 the place of a primitive.
#[derive(Clone, Copy)]
pub enum ListForm {
    One,
    Two,
}
