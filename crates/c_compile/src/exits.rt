//! Where statements lead to.

/// The places that a `break` and a `continue` lead to.
#[derive(Clone, Copy)]
pub struct Exits {
    pub breaks: u32,
    pub continues: u32,
}
