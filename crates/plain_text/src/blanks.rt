// Which bytes stand between words.

/// The bytes that stand between words.
#[derive(Clone, Copy)]
pub(crate) enum Blanks {
    /// Spaces and tabs.
    SpacesAndTabs,
    /// Spaces alone.
    Spaces,
}
