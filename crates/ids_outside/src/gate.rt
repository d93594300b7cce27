//! A gate that processors pass between their turns.

/// The work at which a processor stands when it passes the gate.
#[derive(Clone, Copy, Debug, Drop, PartialEq, Eq)]
pub enum Point {
    /// A turn.
    Turn,
    /// Parsing of a statement, outside a turn.
    Parse,
    /// The filtering of copied rows, outside a turn.
    Filter,
}

/// A gate holds processors up, as a test wants it. The server calls it with a processor's number between turns.
pub trait Gate {
    /// Lets the processor pass, at once or later. It promises nothing, so it is the one public call without a clause.
    fn at(&self, vp: u32, point: Point);
}

/// A gate that does nothing.
#[derive(Clone, Copy, Debug, Drop, PartialEq, Eq)]
pub struct OpenGate;

impl Gate for OpenGate {
    fn at(&self, _vp: u32, _point: Point) {}
}
