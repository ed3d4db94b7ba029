/// What an amoebot sees of a neighbour over the edge behind one of its ports.
#[derive(Clone, Copy, Debug, Drop, PartialEq, Eq)]
pub struct Peer {
    /// Whether the neighbour is expanded.
    pub expanded: bool,
    /// Whether the edge is at the neighbour's head; so it is for a contracted one.
    pub at_head: bool,
    /// The edge's local direction at the neighbour, 0 to 5.
    pub dir: u8,
}
