//! The calls that read the clause and the condition of a policy.
ghost use Rattle.std.specs.Prelude.{◌≡◌, IfOk};
ghost use Rattle.cedar_c_sets.specs.Clauses.{AnswersClause, AnswersCondition, IsEncodedExpr};

use crate::reads::body_of;
use crate::set_state::SetState;
use cedar_c_lists::{Answer, Reason, id_of};
use cedar_c_trees::{Node, write_expr};
use cedar_terms::Expr;
use std::alloc::{AllocError, Global};
use std::hash::BuildHasher;

// An encoded expression: a list with the text of the nodes, and the nodes.
#[derive(Drop)]
struct EncodedNodes {
    answer: Answer,
    nodes: Vec<Node>,
}

// Encodes an expression as nodes over one text.
fn encode_expr(alloc: Global, expr: &Expr) -> Result<EncodedNodes, AllocError>
    ensures { IfOk result (λ s. IsEncodedExpr expr.now s.answer s.nodes.items) }
{
    let written = write_expr(alloc, expr)?;
    let answer = Answer::new(alloc).with(written.bytes())?;
    let nodes = written.into_nodes();
    Ok(EncodedNodes { answer, nodes })
}

impl<S: BuildHasher + Copy> SetState<S> {
    // Stores an encoded expression in `answer` and `nodes`.
    fn store_encoded(&mut self, shown: EncodedNodes)
        ensures set { self.new.set ≡ self.old.set }
        ensures refusal { self.new.refusal.items ≡ self.old.refusal.items }
        ensures answer { self.new.answer ≡ shown.answer }
        ensures nodes { self.new.nodes.items ≡ shown.nodes.items }
    {
        let EncodedNodes { answer, nodes } = shown;
        self.answer = answer;
        self.nodes = nodes;
    }

    /// Encodes the clause of the policy or template with an id, and returns whether it has one. Stores the nodes in
    /// `nodes`, and their text in `answer`. The slots stay in the clause, also for a link. If there is no clause,
    /// nothing changes.
    ///
    /// # Errors
    ///
    /// - `NotUtf8`: the id is not UTF-8.
    /// - `NoBody`: the id is not in use.
    /// - `NoMemory`: an allocation failed.
    ///
    /// After an error nothing has changed.
    pub fn clause(&mut self, alloc: Global, id: &[u8]) -> Result<bool, Reason>
        ensures { AnswersClause id.now result self.old self.new }
    {
        let id = id_of(alloc, id)?;
        let Some(body) = body_of(&self.set, &id) else {
            return Err(Reason::NoBody);
        };
        let Some(clause) = body.non_scope_constraints() else {
            return Ok(false);
        };
        let shown = encode_expr(alloc, clause)?;
        self.store_encoded(shown);
        Ok(true)
    }

    /// Encodes the condition of the policy or template with an id: the scope and the clause. Stores the nodes in
    /// `nodes`, and their text in `answer`. The slots stay in the condition, also for a link.
    ///
    /// # Errors
    ///
    /// - `NotUtf8`: the id is not UTF-8.
    /// - `NoBody`: the id is not in use.
    /// - `NoMemory`: an allocation failed.
    ///
    /// After an error nothing has changed.
    pub fn condition(&mut self, alloc: Global, id: &[u8]) -> Result<(), Reason>
        ensures { AnswersCondition id.now result self.old self.new }
    {
        let id = id_of(alloc, id)?;
        let Some(body) = body_of(&self.set, &id) else {
            return Err(Reason::NoBody);
        };
        let condition = body.condition(alloc)?;
        let shown = encode_expr(alloc, &condition)?;
        self.store_encoded(shown);
        Ok(())
    }
}
