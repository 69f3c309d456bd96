//! What a file of the page may be.

/// What a file is, by the ending of its name.
#[derive(Clone, Copy, Debug, PartialEq, Eq)]
pub enum Kind {
    /// A page: `.html`.
    Html,
    /// How a page looks: `.css`.
    Style,
    /// A module of what a page does: `.js`.
    Script,
}
