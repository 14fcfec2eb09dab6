//! Expressions: the eleven kinds of node, and their constructors.
ghost use Rattle.std.specs.Prelude.{◌≡◌, IfOk, IsTrue};
ghost use Rattle.std.specs.Cmp.{partial_equiv_from_equiv};

use crate::expr_hash::feed;
use crate::expr_same::same;
use crate::expr_text::show;
use crate::literal::Literal;
use crate::slot::SlotId;
use crate::unknown::Unknown;
use crate::var::Var;
use cedar_ids::entity::EntityType;
use cedar_ids::loc::Loc;
use cedar_ids::name::Name;
use std::alloc::{AllocError, Global};
use std::fmt;
use std::hash::{Hash, Hasher};
use std::marker::Model;
use std::rc::Rc;

/// An expression: a tree of nodes of eleven kinds. Each node has an optional location.
///
/// Equality and hash use only the tree, and ignore locations. Contracts see an expression as a tree without locations.
/// `clone` shares the parts of the expression.
///
/// `Display` writes an operand without parentheses if it is a literal, variable, slot, unknown, set or call. It writes
/// every other operand in parentheses: `(!(2 == 1)) && true`.
///
/// Comparing, hashing and writing recurse into the tree and do not allocate. An expression with 10,000 levels does not
/// exhaust an ordinary stack.
#[derive(Debug, Drop)]
#[cycle(expr)]
pub struct Expr {
    pub(crate) kind: ExprKind,
    pub(crate) loc: Option<Loc>,
}

// The kind of a node. The constructors of `Expr` describe each kind.
#[derive(Debug, Drop)]
#[cycle(expr)]
pub(crate) enum ExprKind {
    Lit(Literal),
    Var(Var),
    Slot(SlotId),
    Unknown(Rc<Unknown>),
    Set(Rc<Vec<Expr>>),
    Call(Name, Rc<Vec<Expr>>),
    Not(Rc<Expr>),
    Binary(BinaryOp, Rc<Expr>, Rc<Expr>),
    Is(Rc<Expr>, EntityType),
}

// The operator of a node with two operands.
#[derive(Clone, Copy, Debug)]
pub(crate) enum BinaryOp {
    And,
    Eq,
    In,
}

impl BinaryOp {
    ghost use Rattle.cedar_terms.specs.ExprTree.{operator_index};
    ghost use Rattle.cedar_terms.specs.ExprViews.{operator_of};

    // Returns the index of the operator.
    pub(crate) fn index(self) -> u8
        ensures { result ≡ operator_index (operator_of self) }
    {
        match self {
            BinaryOp::And => 0,
            BinaryOp::Eq => 1,
            BinaryOp::In => 2,
        }
    }
}

impl Model for Expr {
    ghost use Rattle.cedar_terms.specs.ExprTree.{ExprTree, expr_size};
    ghost use Rattle.cedar_terms.specs.Codes.{expr_code};

    ghost Value = { ExprTree };

    ghost coded = { expr_code };

    ghost use Rattle.cedar_terms.specs.ExprViews.{node_tree};

    ghost view = { λ e. node_tree e.kind };

    ghost size = { expr_size };

    ghost use Rattle.cedar_terms.specs.laws.ExprSizes.{deep_le_size};

    ghost size_decreases = { λ a h. deep_le_size a.kind };
}

impl Expr {
    ghost use Rattle.std.specs.Prelude.{map, OnOk, ◌++◌, List};
    ghost use Rattle.cedar_ids.specs.Views.{type_name};
    ghost use Rattle.cedar_terms.specs.Views.{literal_tree};
    ghost use Rattle.cedar_terms.specs.ExprTree.{val_node, var_node, slot_node, unknown_node, set_node, call_node};
    ghost use Rattle.cedar_terms.specs.ExprTree.{not_node, binary_node, and_node, eq_node, in_node, is_node};
    ghost use Rattle.cedar_terms.specs.ExprTree.{expr_trees};
    ghost use Rattle.cedar_terms.specs.ExprViews.{node_tree, operator_of};

    /// Creates the expression of a literal. A new node has no location. Does not allocate.
    ///
    /// # Errors
    ///
    /// Never returns `AllocError`. The `Result` leaves room for a representation whose allocation can fail.
    pub fn val(_alloc: Global, literal: Literal) -> Result<Expr, AllocError>
        ensures { IfOk result (λ e. e ≡ val_node (literal_tree literal)) }
    {
        Ok(Expr::of(ExprKind::Lit(literal)))
    }

    /// Creates the expression of a variable. Does not allocate.
    ///
    /// # Errors
    ///
    /// Never returns `AllocError`.
    pub fn var(_alloc: Global, var: Var) -> Result<Expr, AllocError>
        ensures { IfOk result (λ e. e ≡ var_node var) }
    {
        Ok(Expr::of(ExprKind::Var(var)))
    }

    /// Creates the expression of a slot. Does not allocate.
    ///
    /// # Errors
    ///
    /// Never returns `AllocError`.
    pub fn slot(_alloc: Global, id: SlotId) -> Result<Expr, AllocError>
        ensures { IfOk result (λ e. e ≡ slot_node id) }
    {
        Ok(Expr::of(ExprKind::Slot(id)))
    }

    /// Creates the expression of an unknown.
    ///
    /// # Errors
    ///
    /// Returns `AllocError` if an allocation fails.
    pub fn unknown(alloc: Global, unknown: Unknown) -> Result<Expr, AllocError>
        ensures { IfOk result (λ e. e ≡ unknown_node unknown) }
    {
        let unknown = Rc::new(alloc, unknown)?;
        Ok(Expr::of(ExprKind::Unknown(unknown)))
    }

    /// Creates a set expression, with the elements in the given order.
    ///
    /// # Errors
    ///
    /// Returns `AllocError` if an allocation fails.
    pub fn set(alloc: Global, exprs: Vec<Expr>) -> Result<Expr, AllocError>
        ensures { IfOk result (λ e. e ≡ set_node (expr_trees exprs.items)) }
    {
        let exprs = Rc::new(alloc, exprs)?;
        Ok(Expr::of(ExprKind::Set(exprs)))
    }

    /// Creates a call of an extension function.
    ///
    /// # Errors
    ///
    /// Returns `AllocError` if an allocation fails.
    ///
    /// # Differences from cedar-policy-core
    ///
    /// The original calls this `call_extension_fn`.
    pub fn call(alloc: Global, name: Name, args: Vec<Expr>) -> Result<Expr, AllocError>
        ensures { IfOk result (λ e. e ≡ call_node name (expr_trees args.items)) }
    {
        let args = Rc::new(alloc, args)?;
        Ok(Expr::of(ExprKind::Call(name, args)))
    }

    /// Creates the negation of an expression: `!operand`.
    ///
    /// # Errors
    ///
    /// Returns `AllocError` if an allocation fails.
    pub fn not(alloc: Global, operand: Expr) -> Result<Expr, AllocError>
        ensures { IfOk result (λ e. e ≡ not_node operand) }
    {
        let operand = Rc::new(alloc, operand)?;
        Ok(Expr::of(ExprKind::Not(operand)))
    }

    /// Creates the conjunction of two expressions: `left && right`. It is always a new node.
    ///
    /// # Errors
    ///
    /// Returns `AllocError` if an allocation fails.
    pub fn and(alloc: Global, left: Expr, right: Expr) -> Result<Expr, AllocError>
        ensures { IfOk result (λ e. e ≡ and_node left right) }
    {
        Expr::binary(alloc, BinaryOp::And, left, right)
    }

    /// Creates the equality test `left == right`.
    ///
    /// # Errors
    ///
    /// Returns `AllocError` if an allocation fails.
    pub fn is_eq(alloc: Global, left: Expr, right: Expr) -> Result<Expr, AllocError>
        ensures { IfOk result (λ e. e ≡ eq_node left right) }
    {
        Expr::binary(alloc, BinaryOp::Eq, left, right)
    }

    /// Creates the hierarchy test `left in right`.
    ///
    /// # Errors
    ///
    /// Returns `AllocError` if an allocation fails.
    pub fn is_in(alloc: Global, left: Expr, right: Expr) -> Result<Expr, AllocError>
        ensures { IfOk result (λ e. e ≡ in_node left right) }
    {
        Expr::binary(alloc, BinaryOp::In, left, right)
    }

    /// Creates the type test `operand is ty`.
    ///
    /// # Errors
    ///
    /// Returns `AllocError` if an allocation fails.
    pub fn is_entity_type(alloc: Global, operand: Expr, ty: EntityType) -> Result<Expr, AllocError>
        ensures { IfOk result (λ e. e ≡ is_node operand (type_name ty)) }
    {
        let operand = Rc::new(alloc, operand)?;
        Ok(Expr::of(ExprKind::Is(operand, ty)))
    }

    // Creates a node with two operands.
    fn binary(alloc: Global, op: BinaryOp, left: Expr, right: Expr) -> Result<Expr, AllocError>
        ensures { IfOk result (λ e. e ≡ binary_node (operator_of op) left right) }
    {
        let left = Rc::new(alloc, left)?;
        let right = Rc::new(alloc, right)?;
        Ok(Expr::of(ExprKind::Binary(op, left, right)))
    }

    // Creates a node of this kind, without a location.
    fn of(kind: ExprKind) -> Expr
        ensures { result ≡ node_tree kind }
    {
        Expr { kind, loc: None }
    }

    /// Replaces the location of the root node. Does not allocate.
    pub fn with_maybe_source_loc(self, loc: Option<Loc>) -> Expr
        ensures { result ≡ self }
    {
        Expr {
            kind: self.kind,
            loc,
        }
    }

    /// Returns the location of the root node, if it has one. Does not allocate.
    pub fn source_loc(&self) -> Option<&Loc> {
        self.loc.as_ref()
    }
}

impl Clone for Expr {
    ghost is_clone = { λ x y. y ≡ x };

    /// Copies the expression, with its location. All parts are shared, except that the text of a string literal at the
    /// root is copied.
    ///
    /// # Errors
    ///
    /// Returns `AllocError` if an allocation fails.
    fn clone(&self) -> Result<Expr, AllocError> {
        let kind = match &self.kind {
            ExprKind::Lit(literal) => ExprKind::Lit(literal.clone()?),
            ExprKind::Var(var) => ExprKind::Var(*var),
            ExprKind::Slot(id) => ExprKind::Slot(*id),
            ExprKind::Unknown(unknown) => ExprKind::Unknown(unknown.clone()?),
            ExprKind::Set(exprs) => ExprKind::Set(exprs.clone()?),
            ExprKind::Call(name, args) => ExprKind::Call(name.clone()?, args.clone()?),
            ExprKind::Not(operand) => ExprKind::Not(operand.clone()?),
            ExprKind::Binary(op, left, right) => ExprKind::Binary(
                *op,
                left.clone()?,
                right.clone()?,
            ),
            ExprKind::Is(operand, ty) => ExprKind::Is(operand.clone()?, ty.clone()?),
        };
        Ok(Expr {
            kind,
            loc: self.loc.clone()?,
        })
    }
}

impl PartialEq for Expr {
    ghost use Rattle.cedar_terms.specs.laws.ExprLaws.{same_expr_equiv};
    ghost use Rattle.cedar_terms.specs.ExprEquality.{same_expr};

    ghost eq = { same_expr };

    ghost laws = { partial_equiv_from_equiv same_expr_equiv };

    fn eq(&self, other: &Expr) -> bool {
        same(self, other)
    }
}

impl Eq for Expr {
    ghost use Rattle.cedar_terms.specs.laws.ExprLaws.{same_expr_equiv};

    ghost laws = { same_expr_equiv };
}

impl Hash for Expr {
    ghost use Rattle.cedar_terms.specs.laws.ExprLaws.{expr_hash_respects};
    ghost use Rattle.cedar_terms.specs.ExprEquality.{expr_hash};

    ghost hash_input = { expr_hash };

    ghost respects_eq = { expr_hash_respects };

    fn hash<H: Hasher>(&self, state: &mut H) {
        feed(self, state);
    }
}

impl fmt::Display for Expr {
    ghost use Rattle.cedar_terms.specs.ExprTexts.{expr_output};

    ghost output = { expr_output };

    fn fmt<W: fmt::Write>(&self, f: &mut fmt::Formatter<W>) -> fmt::Result {
        show(self, f)
    }
}
