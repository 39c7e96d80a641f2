// The operators of expressions.

/// An operator before its operand.
#[derive(Clone, Copy)]
pub enum UnaryOperator {
    /// `-`
    Minus,
    /// `!`
    Not,
}

/// An operator between two operands.
#[derive(Clone, Copy)]
pub enum BinaryOperator {
    /// `||`
    Or,
    /// `&&`
    And,
    /// `===`
    Same,
    /// `!==`
    NotSame,
    /// `<`
    Less,
    /// `>`
    Greater,
    /// `<=`
    LessEqual,
    /// `>=`
    GreaterEqual,
    /// `in`
    In,
    /// `+`
    Plus,
    /// `-`
    Minus,
    /// `*`
    Times,
    /// `%`
    Remainder,
}

/// An operator that gives its target a value.
#[derive(Clone, Copy)]
pub enum AssignOperator {
    /// `=`
    Set,
    /// `+=`
    Add,
    /// `-=`
    Subtract,
}
