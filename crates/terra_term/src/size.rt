// How many nodes and levels a term has.

ghost use Rattle.std.specs.Prelude.{◌≡◌};
ghost use Rattle.terra_term.specs.Sizes.{above, capped, joined, leaf, names_size, none};

/// How many nodes and levels a term has: at most 4,294,967,295 nodes and 65,535 levels. A larger number is kept as that one.
#[derive(Clone, Copy, PartialEq, Eq)]
pub struct Size {
    pub nodes: u32,
    pub levels: u16,
}

impl Size {
    /// The size of nothing.
    pub fn none() -> Size
        ensures { result ≡ none }
    {
        Size {
            nodes: 0,
            levels: 0,
        }
    }

    /// The size of a node without parts.
    pub fn leaf() -> Size
        ensures { result ≡ leaf }
    {
        Size {
            nodes: 1,
            levels: 1,
        }
    }

    /// The size of parts that stand side by side.
    pub fn joined(self, other: Size) -> Size
        ensures { result ≡ capped (joined self other) }
    {
        Size {
            nodes: self.nodes.saturating_add(other.nodes),
            levels: self.levels.max(other.levels),
        }
    }

    /// The size of a node with these parts.
    pub fn above(self) -> Size
        ensures { result ≡ capped (above self) }
    {
        Size {
            nodes: self.nodes.saturating_add(1),
            levels: self.levels.saturating_add(1),
        }
    }

    /// The size of so many names side by side.
    pub(crate) fn of_names(count: usize) -> Size
        ensures { result ≡ capped (names_size count) }
    {
        let nodes = if count < u32::MAX as usize {
            count as u32
        } else {
            u32::MAX
        };
        let levels = if count == 0 { 0 } else { 1 };
        Size { nodes, levels }
    }
}

/// What a node is, with its size. The numbers stand in each variant, so that one takes eight bytes.
#[derive(Clone, Copy, PartialEq, Eq)]
pub(crate) enum SizedNode {
    Expression { levels: u16, nodes: u32 },
    Statement { levels: u16, nodes: u32 },
    Function { levels: u16, nodes: u32 },
}

impl SizedNode {
    ghost use Rattle.terra_term.specs.Sizing.{node_size, of_expression, of_function, of_statement};

    /// An expression of this size.
    pub(crate) fn expression(size: Size) -> SizedNode
        ensures { result ≡ of_expression size }
    {
        SizedNode::Expression {
            levels: size.levels,
            nodes: size.nodes,
        }
    }

    /// A statement of this size.
    pub(crate) fn statement(size: Size) -> SizedNode
        ensures { result ≡ of_statement size }
    {
        SizedNode::Statement {
            levels: size.levels,
            nodes: size.nodes,
        }
    }

    /// A function of this size.
    pub(crate) fn function(size: Size) -> SizedNode
        ensures { result ≡ of_function size }
    {
        SizedNode::Function {
            levels: size.levels,
            nodes: size.nodes,
        }
    }

    /// The size alone.
    pub(crate) fn size(self) -> Size
        ensures { result ≡ node_size self }
    {
        match self {
            SizedNode::Expression { levels, nodes }
            | SizedNode::Statement { levels, nodes }
            | SizedNode::Function { levels, nodes } => Size { nodes, levels },
        }
    }
}
