//! The public view of an expression's root node, for code that traverses expressions.
ghost use Rattle.std.specs.Prelude.{◌≡◌};
ghost use Rattle.cedar_terms.specs.ExprNodes.{expr_at};

use crate::expr::{BinaryOp, Expr, ExprKind};
use crate::literal::Literal;
use crate::slot::SlotId;
use crate::unknown::Unknown;
use crate::var::Var;
use cedar_ids::entity::EntityType;
use cedar_ids::name::Name;

/// The root node of an expression. It borrows the content and the children of the node.
#[derive(Debug, Drop)]
pub enum ExprNode<'a> {
    /// A literal.
    Val(&'a Literal),
    /// A variable.
    Var(Var),
    /// A slot.
    Slot(SlotId),
    /// A value that is not known yet.
    Unknown(&'a Unknown),
    /// A set of expressions, in the given order.
    Set(&'a [Expr]),
    /// A call of an extension function: its name and its arguments.
    Call(&'a Name, &'a [Expr]),
    /// A negation: `!e`.
    Not(&'a Expr),
    /// A conjunction: `l && r`.
    And(&'a Expr, &'a Expr),
    /// An equality test: `l == r`.
    Eq(&'a Expr, &'a Expr),
    /// A hierarchy test: `l in r`.
    In(&'a Expr, &'a Expr),
    /// A type test: `e is T`.
    Is(&'a Expr, &'a EntityType),
}

impl Expr {
    /// Returns the root node of the expression.
    ///
    /// # Complexity
    ///
    /// O(1). Does not allocate.
    ///
    /// # Differences from cedar-policy-core
    ///
    /// The original has `expr_kind`, which returns its own type with pointers in the variants. This function hides the
    /// representation of an expression.
    pub fn node(&self) -> ExprNode<'_>
        ensures { expr_at result ≡ self.now }
    {
        match &self.kind {
            ExprKind::Lit(literal) => ExprNode::Val(literal),
            ExprKind::Var(var) => ExprNode::Var(*var),
            ExprKind::Slot(id) => ExprNode::Slot(*id),
            ExprKind::Unknown(unknown) => ExprNode::Unknown(unknown),
            ExprKind::Set(exprs) => ExprNode::Set(exprs.as_slice()),
            ExprKind::Call(name, args) => ExprNode::Call(name, args.as_slice()),
            ExprKind::Not(operand) => ExprNode::Not(operand),
            ExprKind::Binary(BinaryOp::And, left, right) => ExprNode::And(left, right),
            ExprKind::Binary(BinaryOp::Eq, left, right) => ExprNode::Eq(left, right),
            ExprKind::Binary(BinaryOp::In, left, right) => ExprNode::In(left, right),
            ExprKind::Is(operand, ty) => ExprNode::Is(operand, ty),
        }
    }
}
