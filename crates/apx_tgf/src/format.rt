//! The formats of texts with names.

/// A format in which arguments have names.
#[derive(Clone, Copy, Debug, PartialEq, Eq)]
pub enum NameFormat {
    /// Facts `arg(a).` and `att(a,b).`.
    Apx,
    /// Nodes, a line `#`, and edges.
    Tgf,
}
