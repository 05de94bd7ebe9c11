//! What clauses say: bounds and sides.

use crate::node::Node;

/// That a side is met, or that it is not, by number. The two literals of a side follow each other.
#[derive(Clone, Copy, PartialEq, Eq)]
pub struct SideLiteral(pub usize);

impl SideLiteral {
    /// The literal that holds where this one does not.
    pub fn opposite(self) -> SideLiteral {
        SideLiteral(self.0 ^ 1)
    }

    /// The number of its side.
    pub fn side(self) -> usize {
        self.0 / 2
    }

    /// Whether it says that the side is met.
    pub fn is_met(self) -> bool {
        self.0 % 2 == 0
    }
}

/// That a bound is at most a number of picoseconds.
#[derive(Clone, Copy, PartialEq, Eq)]
pub struct NodeBound {
    pub node: Node,
    pub value: i64,
}

impl NodeBound {
    /// The bound that times have where they do not have this one.
    pub fn opposite(self) -> NodeBound {
        NodeBound {
            node: self.node.other(),
            value: beyond(self.value),
        }
    }
}

/// The number at or below which the other bound of an event excludes this one.
pub fn beyond(value: i64) -> i64 {
    (-1i64).saturating_sub(value)
}

/// What an item of a clause says.
#[derive(Clone, Copy, PartialEq, Eq)]
pub enum Literal {
    Bound(NodeBound),
    Side(SideLiteral),
}

impl Literal {
    /// The literal that holds where this one does not.
    pub fn opposite(self) -> Literal {
        match self {
            Literal::Bound(bound) => Literal::Bound(bound.opposite()),
            Literal::Side(side) => Literal::Side(side.opposite()),
        }
    }
}
