// The axes along which a panel is measured.

/// An axis of a panel.
#[derive(Clone, Copy, Debug, PartialEq, Eq, Hash)]
pub enum Axis {
    X,
    Y,
}
