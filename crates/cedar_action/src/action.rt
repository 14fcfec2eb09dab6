//! Constraints on the action of a request.
ghost use Rattle.std.specs.Prelude.{◌≡◌, ◌&&◌, ◌++◌, IfOk, OnErr, List, map, true, false};
ghost use Rattle.std.specs.Fmt.{WritesOnOk};
ghost use Rattle.std.specs.List.{list_all, flat_map, filter};
ghost use Rattle.std.specs.Ordering.{on, as_partial_cmp};
ghost use Rattle.std.specs.Cmp.{partial_equiv_from_equiv, on_equiv, on_total, po};
ghost use Rattle.std.specs.Cmp.Lexicographic.{slice_cmp};
ghost use Rattle.std.proofs.Common.{refl};
ghost use Rattle.cedar_ids.specs.NonEmpties.{all_of};
ghost use Rattle.cedar_ids.specs.Printed.{printed_uid};
ghost use Rattle.cedar_ids.specs.Uid.{UidParts, name_part};
ghost use Rattle.cedar_ids.specs.UidOf.{uid_parts};
ghost use Rattle.cedar_terms.specs.ExprTree.{eq_node, expr_trees, in_node, set_node, slot_node, var_node};
ghost use Rattle.cedar_terms.specs.declared.var.Var.TheVariants as vars;
ghost use Rattle.cedar_terms.specs.declared.slot.SlotId.TheVariants.{Action};
ghost use Rattle.cedar_action.specs.Rules.{any_action, among, just, among_slot, just_slot};
ghost use Rattle.cedar_action.specs.RuleReads.{rule_kind, rule_uids, rule_has_slot, uids_given, is_no_action};
ghost use Rattle.cedar_action.specs.RuleReads.{filled_rule};
ghost use Rattle.cedar_action.specs.RuleOrder.{rule_cmp, same_rule, rule_hash};
ghost use Rattle.cedar_action.specs.RuleTrees.{rule_expr};
ghost use Rattle.cedar_terms.specs.UidTrees.{uid_expr};
ghost use Rattle.cedar_action.specs.RuleTexts.{rule_output, uids_text, uids_output, after_comma};
ghost use Rattle.cedar_terms.specs.UidTrees.{is_ascii_uid};
ghost use Rattle.cedar_action.specs.ActionTypes.{ChecksTypes, PassesTypes};
ghost use Rattle.cedar_action.specs.Views.{rule_of, uids_left};
ghost use Rattle.cedar_action.specs.laws.RuleOrders.{rule_cmp_total, same_rule_equiv, rule_hash_respects};
ghost use Rattle.cedar_action.specs.declared.action.ActionTypesError.TheVariants.{Memory};

use crate::iters::{ActionTypeNames, EntityIterator};
use cedar_ids::entity::EntityUID;
use cedar_ids::loc::Loc;
use cedar_ids::non_empty::NonEmpty;
use cedar_terms::expr::Expr;
use cedar_terms::literal::Literal;
use cedar_terms::slot::SlotId;
use cedar_terms::var::Var;
use std::alloc::{AllocError, AllocFailed, Global};
use std::cmp::Ordering;
use std::hash::{Hash, Hasher};
use std::rc::Rc;
use std::{fmt, slice};
use thiserror::Error;

/// The condition that a policy places on the action of a request.
///
/// The order is by kind, in the order of the variants, then by the uids item by item. Equality, order and hash ignore
/// locations and do not allocate. `clone` allocates a new list and shares its uids.
///
/// `Display` writes `action`, `action in [U,W]`, `action == U`, `action in ?action` or `action == ?action`. An eid that
/// is not ASCII is written as by `str::escape_debug`. Writing does not allocate.
///
/// # Differences from cedar-policy-core
///
/// The original has no slot for the action.
#[derive(Debug, Drop)]
pub enum ActionConstraint {
    /// Any action.
    Any,
    /// Any action that is in one of these uids.
    In(Vec<Rc<EntityUID>>),
    /// Only the action with this uid.
    Eq(Rc<EntityUID>),
    /// Any action that is in the entity bound to the action's slot. Contains the location of the slot, if it is known.
    InSlot(Option<Loc>),
    /// Only the action bound to the action's slot. Contains the location of the slot, if it is known.
    EqSlot(Option<Loc>),
}

/// The reason why the types in an action constraint are invalid.
///
/// # Differences from cedar-policy-core
///
/// The original returns only the uids. It has no variant for allocation failures.
#[derive(Debug, Drop, Error)]
pub enum ActionTypesError {
    /// These uids are not actions. They are in the order of the list.
    #[error("the action constraint holds uids that are not actions: {}", UidPairs(.0))]
    NotActions(NonEmpty<Rc<EntityUID>>),
    /// An allocation failed.
    #[error("out of memory")]
    Memory,
}

impl From<AllocError> for ActionTypesError {
    ghost from_gives = { λ _ e. e ≡ Memory };

    fn from(_error: AllocError) -> ActionTypesError {
        ActionTypesError::Memory
    }
}

impl<T: Drop> From<AllocFailed<T>> for ActionTypesError {
    ghost from_gives = { λ _ e. e ≡ Memory };

    fn from(_error: AllocFailed<T>) -> ActionTypesError {
        ActionTypesError::Memory
    }
}

/// The uids of an error as its message shows them: separated by commas, without spaces. Writing does not allocate.
#[derive(Debug, Drop)]
pub struct UidPairs<'a>(pub &'a NonEmpty<Rc<EntityUID>>);

impl fmt::Display for UidPairs<'_> {
    ghost output = { λ j. uids_output (map (λ u. uid_parts u.value) (all_of j.0.now)) };

    fn fmt<W: fmt::Write>(&self, f: &mut fmt::Formatter<W>) -> fmt::Result {
        write_all(self.0, f)
    }
}

impl ActionConstraint {
    /// Returns the constraint that allows any action. Does not allocate.
    pub fn any() -> ActionConstraint
        ensures { rule_of result ≡ any_action }
    {
        ActionConstraint::Any
    }

    /// Returns the constraint `in euids`, with the uids in this order.
    ///
    /// # Errors
    ///
    /// Returns `AllocError` if an allocation fails.
    ///
    /// # Complexity
    ///
    /// O(n), where n is the length of the list. Allocates a shared copy of each uid.
    pub fn is_in(alloc: Global, euids: Vec<EntityUID>) -> Result<ActionConstraint, AllocError>
        ensures { IfOk result (λ c. rule_of c ≡ among (map uid_parts euids.items)) }
    {
        let euids = shared(alloc, euids)?;
        Ok(ActionConstraint::In(euids))
    }

    /// Returns the constraint `== euid`. Allocates a shared copy of the uid.
    ///
    /// # Errors
    ///
    /// Returns `AllocError` if an allocation fails.
    pub fn is_eq(alloc: Global, euid: EntityUID) -> Result<ActionConstraint, AllocError>
        ensures { IfOk result (λ c. rule_of c ≡ just (uid_parts euid)) }
    {
        let euid = Rc::new(alloc, euid)?;
        Ok(ActionConstraint::Eq(euid))
    }

    /// Returns the constraint `in ?action`. The slot has no location. Does not allocate.
    ///
    /// # Differences from cedar-policy-core
    ///
    /// The original has no such function.
    pub fn is_in_slot() -> ActionConstraint
        ensures { rule_of result ≡ among_slot }
    {
        ActionConstraint::InSlot(None)
    }

    /// Returns the constraint `== ?action`. The slot has no location. Does not allocate.
    ///
    /// # Differences from cedar-policy-core
    ///
    /// The original has no such function.
    pub fn is_eq_slot() -> ActionConstraint
        ensures { rule_of result ≡ just_slot }
    {
        ActionConstraint::EqSlot(None)
    }

    /// Replaces the action's slot by the uid. `in ?action` becomes `in` a list of this uid, and `== ?action` becomes
    /// `==` this uid. Any other constraint is returned unchanged.
    ///
    /// # Errors
    ///
    /// Returns `AllocError` and drops the constraint if an allocation fails, which is possible only for `in ?action`.
    ///
    /// # Differences from cedar-policy-core
    ///
    /// The original has no such function.
    pub fn with_filled_slot(
        self,
        alloc: Global,
        euid: Rc<EntityUID>,
    ) -> Result<ActionConstraint, AllocError>
        ensures fills { IfOk result (λ c. rule_of c ≡ filled_rule (uid_parts euid.value) (rule_of self)) }
        ensures no_slot { IfOk result (λ c. rule_has_slot (rule_of c) ≡ false) }
        ensures again { IfOk result (λ c. (u : UidParts) → filled_rule u (rule_of c) ≡ rule_of c) }
        ensures refused { OnErr result (rule_of self ≡ among_slot) }
    {
        match self {
            ActionConstraint::InSlot(_) => {
                let mut euids = Vec::new(alloc);
                euids.push(euid)?;
                Ok(ActionConstraint::In(euids))
            }
            ActionConstraint::EqSlot(_) => Ok(ActionConstraint::Eq(euid)),
            other => Ok(other),
        }
    }

    /// Returns the constraint as an expression: `true`, `action in` the set of the uids in order, `action ==` the uid,
    /// or `action in` or `==` its slot. The node of the slot has the location of the constraint's slot. The uids are
    /// shared.
    ///
    /// # Errors
    ///
    /// Returns `AllocError` if an allocation fails.
    ///
    /// # Complexity
    ///
    /// O(n), where n is the number of uids. Allocates O(n).
    pub fn as_expr(&self, alloc: Global) -> Result<Expr, AllocError>
        ensures { IfOk result (λ e. e ≡ rule_expr (rule_of self.now)) }
    {
        match self {
            ActionConstraint::Any => Expr::val(alloc, Literal::Bool(true)),
            ActionConstraint::In(euids) => action_is_in(alloc, euids_into_expr(alloc, euids)?),
            ActionConstraint::Eq(euid) => {
                let uid = Expr::val(alloc, Literal::EntityUID(euid.clone()?))?;
                action_is_eq(alloc, uid)
            }
            ActionConstraint::InSlot(loc) => action_is_in(alloc, slot_at(alloc, loc)?),
            ActionConstraint::EqSlot(loc) => action_is_eq(alloc, slot_at(alloc, loc)?),
        }
    }

    /// Iterates over the uids of the constraint. A list is read from the back, with its repetitions. A slot has no
    /// uids.
    ///
    /// # Errors
    ///
    /// Returns `AllocError` if an allocation fails.
    ///
    /// # Complexity
    ///
    /// Allocates a list of references if the constraint has a list of uids. Else it does not allocate.
    pub fn iter_euids(&self, alloc: Global) -> Result<EntityIterator<'_>, AllocError>
        ensures { IfOk result (λ i. uids_left i ≡ uids_given (rule_of self.now)) }
    {
        match self {
            ActionConstraint::Any => Ok(EntityIterator::None),
            ActionConstraint::In(euids) => bunch(alloc, euids),
            ActionConstraint::Eq(euid) => Ok(EntityIterator::One(euid)),
            ActionConstraint::InSlot(_) => Ok(EntityIterator::None),
            ActionConstraint::EqSlot(_) => Ok(EntityIterator::None),
        }
    }

    /// Iterates over the types of the uids, in the order of [`ActionConstraint::iter_euids`].
    ///
    /// # Errors
    ///
    /// Returns `AllocError` if an allocation fails.
    ///
    /// # Complexity
    ///
    /// As [`ActionConstraint::iter_euids`].
    pub fn iter_entity_type_names(&self, alloc: Global) -> Result<ActionTypeNames<'_>, AllocError>
        ensures { IfOk result (λ i. i ≡ map name_part (uids_given (rule_of self.now))) }
    {
        let euids = self.iter_euids(alloc)?;
        Ok(ActionTypeNames::of(euids))
    }

    /// Checks that each uid is an action: that the last component of its type is `Action`, in any namespace. A slot
    /// passes the check.
    ///
    /// # Errors
    ///
    /// - `NotActions`: some uids are not actions. The error shares exactly these uids, in the order of the list and
    ///   with repetitions.
    /// - `Memory`: an allocation failed, which is possible only if some uid is not an action.
    ///
    /// # Complexity
    ///
    /// O(n), where n is the number of uids. Allocates only for the error.
    pub fn check_action_types(&self, alloc: Global) -> Result<(), ActionTypesError>
        ensures { ChecksTypes result (rule_of self.now) }
    {
        match self {
            ActionConstraint::Any => Ok(()),
            ActionConstraint::In(euids) => check_all(alloc, euids),
            ActionConstraint::Eq(euid) => check_one(alloc, euid),
            ActionConstraint::InSlot(_) => Ok(()),
            ActionConstraint::EqSlot(_) => Ok(()),
        }
    }

    /// Returns the constraint itself, if each uid is an action.
    ///
    /// # Errors
    ///
    /// As [`ActionConstraint::check_action_types`]. The constraint is then dropped.
    pub fn contains_only_action_types(
        self,
        alloc: Global,
    ) -> Result<ActionConstraint, ActionTypesError>
        ensures { PassesTypes result self }
    {
        match self.check_action_types(alloc) {
            Ok(()) => Ok(self),
            Err(error) => Err(error),
        }
    }

    // Returns the index of the kind.
    fn kind(&self) -> u8
        ensures { result ≡ rule_kind (rule_of self.now) }
    {
        match self {
            ActionConstraint::Any => 0,
            ActionConstraint::In(_) => 1,
            ActionConstraint::Eq(_) => 2,
            ActionConstraint::InSlot(_) => 3,
            ActionConstraint::EqSlot(_) => 4,
        }
    }

    // Compares two constraints.
    fn compare(&self, other: &ActionConstraint) -> Ordering
        ensures { result ≡ rule_cmp (rule_of self.now) (rule_of other.now) }
    {
        match self {
            ActionConstraint::Any => self.kind().cmp(&other.kind()),
            ActionConstraint::In(us) => match other {
                ActionConstraint::In(vs) => compare_lists(us, vs),
                _ => self.kind().cmp(&other.kind()),
            },
            ActionConstraint::Eq(u) => match other {
                ActionConstraint::Eq(v) => compare_uids(u, v),
                _ => self.kind().cmp(&other.kind()),
            },
            ActionConstraint::InSlot(_) => self.kind().cmp(&other.kind()),
            ActionConstraint::EqSlot(_) => self.kind().cmp(&other.kind()),
        }
    }
}

ghost use Rattle.std.specs.Prelude.{[], ◌∷◌, MatchOption, fold};
ghost use Rattle.cedar_ids.specs.Uid.{uid_cmp, uid_hash_input};
ghost use Rattle.std.specs.Hash as fed;

// Compares two lists of uids.
fn compare_lists(us: &Vec<Rc<EntityUID>>, vs: &Vec<Rc<EntityUID>>) -> Ordering
    ensures { result ≡ slice_cmp uid_cmp (map (λ u. uid_parts u.value) us.now.items)
        (map (λ u. uid_parts u.value) vs.now.items) }
{
    us.cmp(vs)
}

// Compares two uids, as lists of one uid.
#[tactic(auto, using(crate::proofs::UidLists::lists_of_one_cmp))]
fn compare_uids(u: &EntityUID, v: &EntityUID) -> Ordering
    ensures { result ≡ slice_cmp uid_cmp (uid_parts u.now ∷ []) (uid_parts v.now ∷ []) }
{
    u.cmp(v)
}

// Moves each uid into a shared allocation.
fn shared(alloc: Global, euids: Vec<EntityUID>) -> Result<Vec<Rc<EntityUID>>, AllocError>
    ensures { IfOk result (λ us. map (λ u. uid_parts u.value) us.items ≡ map uid_parts euids.items) }
{
    let mut all = Vec::new(alloc);
    for euid in euids {
        all.push(Rc::new(alloc, euid)?)?;
    }
    Ok(all)
}

// Returns the expression of the action's slot, with this location.
fn slot_at(alloc: Global, loc: &Option<Loc>) -> Result<Expr, AllocError>
    ensures { IfOk result (λ e. e ≡ slot_node Action) }
{
    let expr = Expr::slot(alloc, SlotId::Action)?;
    Ok(expr.with_maybe_source_loc(loc.clone()?))
}

// Returns the expression `action in right`.
fn action_is_in(alloc: Global, right: Expr) -> Result<Expr, AllocError>
    ensures { IfOk result (λ e. e ≡ in_node (var_node vars.Action) right) }
{
    let left = Expr::var(alloc, Var::Action)?;
    Expr::is_in(alloc, left, right)
}

// Returns the expression `action == right`.
fn action_is_eq(alloc: Global, right: Expr) -> Result<Expr, AllocError>
    ensures { IfOk result (λ e. e ≡ eq_node (var_node vars.Action) right) }
{
    let left = Expr::var(alloc, Var::Action)?;
    Expr::is_eq(alloc, left, right)
}

// Returns the set expression of some uids.
fn euids_into_expr(alloc: Global, euids: &Vec<Rc<EntityUID>>) -> Result<Expr, AllocError>
    ensures { IfOk result
        (λ e. e ≡ set_node (expr_trees (map uid_expr (map (λ u. uid_parts u.value) euids.now.items)))) }
{
    let mut exprs = Vec::new(alloc);
    for euid in euids {
        exprs.push(Expr::val(alloc, Literal::EntityUID(euid.clone()?))?)?;
    }
    Expr::set(alloc, exprs)
}

// Returns the iterator over a list of uids.
fn bunch(alloc: Global, euids: &Vec<Rc<EntityUID>>) -> Result<EntityIterator<'_>, AllocError>
    ensures { IfOk result
        (λ i. uids_left i ≡ uids_given (among (map (λ u. uid_parts u.value) euids.now.items))) }
{
    let euids = references(alloc, euids)?;
    Ok(EntityIterator::Bunch(euids))
}

// Returns references to some uids.
fn references<'a>(
    alloc: Global,
    euids: &'a Vec<Rc<EntityUID>>,
) -> Result<Vec<&'a EntityUID>, AllocError>
    ensures { IfOk result
        (λ us. map (λ u. uid_parts u.now) us.items ≡ map (λ u. uid_parts u.value) euids.now.items) }
{
    let mut all = Vec::new(alloc);
    for euid in euids {
        let euid: &EntityUID = euid;
        all.push(euid)?;
    }
    Ok(all)
}

// Returns whether a uid is not the uid of an action.
fn is_no_action(euid: &EntityUID) -> bool
    ensures { result ≡ is_no_action (uid_parts euid.now) }
{
    !euid.is_action()
}

// Returns an error with the uid if it is not an action.
fn check_one(alloc: Global, euid: &Rc<EntityUID>) -> Result<(), ActionTypesError>
    ensures { ChecksTypes result (just (uid_parts euid.now.value)) }
{
    if !is_no_action(euid) {
        return Ok(());
    }
    let head = euid.clone()?;
    let tail = Vec::new(alloc);
    Err(ActionTypesError::NotActions(NonEmpty { head, tail }))
}

// Returns an error with the uids of a list that are not actions, if there are any.
fn check_all(alloc: Global, euids: &Vec<Rc<EntityUID>>) -> Result<(), ActionTypesError>
    ensures { ChecksTypes result (among (map (λ u. uid_parts u.value) euids.now.items)) }
{
    let found = non_actions(alloc, euids)?;
    match non_empty(found) {
        Some(found) => Err(ActionTypesError::NotActions(found)),
        None => Ok(()),
    }
}

// Returns the uids that are not actions, in the order of the list.
fn non_actions(alloc: Global, euids: &Vec<Rc<EntityUID>>) -> Result<Vec<Rc<EntityUID>>, AllocError>
    ensures ok { IfOk result (λ us. map (λ u. uid_parts u.value) us.items
        ≡ filter is_no_action (map (λ u. uid_parts u.value) euids.now.items)) }
    ensures err { OnErr result
        (filter is_no_action (map (λ u. uid_parts u.value) euids.now.items) ≡ [] → ⊥) }
{
    let mut found = Vec::new(alloc);
    for euid in euids {
        if is_no_action(euid) {
            found.push(euid.clone()?)?;
        }
    }
    Ok(found)
}

// Returns the list as a non-empty list, if it has an element.
fn non_empty(mut euids: Vec<Rc<EntityUID>>) -> Option<NonEmpty<Rc<EntityUID>>>
    ensures { MatchOption result (euids.items ≡ []) (λ us. all_of us ≡ euids.items) }
{
    if euids.is_empty() {
        return None;
    }
    let head = euids.remove(0);
    Some(NonEmpty { head, tail: euids })
}

impl fmt::Display for ActionConstraint {
    ghost output = { λ c. rule_output (rule_of c) };

    fn fmt<W: fmt::Write>(&self, f: &mut fmt::Formatter<W>) -> fmt::Result {
        match self {
            ActionConstraint::Any => f.write_str("action"),
            ActionConstraint::In(euids) => {
                f.write_str("action in [")?;
                write_euids(euids, f)?;
                f.write_str("]")
            }
            ActionConstraint::Eq(euid) => write!(f, "action == {euid}"),
            ActionConstraint::InSlot(_) => f.write_str("action in ?action"),
            ActionConstraint::EqSlot(_) => f.write_str("action == ?action"),
        }
    }
}

// Writes the uids of an error, separated by commas.
fn write_all<W: fmt::Write>(
    uids: &NonEmpty<Rc<EntityUID>>,
    f: &mut fmt::Formatter<W>,
) -> fmt::Result
    ensures { list_all is_ascii_uid (map (λ u. uid_parts u.value) (all_of uids.now)) ≡ true
        → WritesOnOk W.write_str_gives f.old result
        (uids_text (map (λ u. uid_parts u.value) (all_of uids.now))) f.new }
{
    write_listed(&uids.head, uids.tail.as_slice(), f)
}

// Writes some uids, separated by commas.
fn write_euids<W: fmt::Write>(euids: &[Rc<EntityUID>], f: &mut fmt::Formatter<W>) -> fmt::Result
    ensures { list_all is_ascii_uid (map (λ u. uid_parts u.value) euids.now) ≡ true
        → WritesOnOk W.write_str_gives f.old result
        (uids_text (map (λ u. uid_parts u.value) euids.now)) f.new }
{
    match euids.split_first() {
        None => Ok(()),
        Some((first, rest)) => write_listed(first, rest, f),
    }
}

// Writes a uid, and then others with a comma before each.
fn write_listed<W: fmt::Write>(
    first: &EntityUID,
    rest: &[Rc<EntityUID>],
    f: &mut fmt::Formatter<W>,
) -> fmt::Result
    ensures { (is_ascii_uid (uid_parts first.now)
        && list_all (λ u. is_ascii_uid (uid_parts u.value)) rest.now) ≡ true
        → WritesOnOk W.write_str_gives f.old result
        (printed_uid (uid_parts first.now)
        ++ flat_map (λ u. after_comma (uid_parts u.value)) rest.now) f.new }
{
    write!(f, "{first}")?;
    write_more(rest, f)
}

// Writes each uid with a comma before it.
fn write_more<W: fmt::Write>(euids: &[Rc<EntityUID>], f: &mut fmt::Formatter<W>) -> fmt::Result
    ensures { list_all (λ u. is_ascii_uid (uid_parts u.value)) euids.now ≡ true
        → WritesOnOk W.write_str_gives f.old result
        (flat_map (λ u. after_comma (uid_parts u.value)) euids.now) f.new }
{
    for euid in euids {
        write!(f, ",{euid}")?;
    }
    Ok(())
}

impl Clone for ActionConstraint {
    ghost is_clone = { λ x y. rule_of y ≡ rule_of x };

    fn clone(&self) -> Result<ActionConstraint, AllocError> {
        match self {
            ActionConstraint::Any => Ok(ActionConstraint::Any),
            ActionConstraint::In(euids) => Ok(ActionConstraint::In(euids.clone()?)),
            ActionConstraint::Eq(euid) => Ok(ActionConstraint::Eq(euid.clone()?)),
            ActionConstraint::InSlot(loc) => Ok(ActionConstraint::InSlot(loc.clone()?)),
            ActionConstraint::EqSlot(loc) => Ok(ActionConstraint::EqSlot(loc.clone()?)),
        }
    }
}

impl PartialEq for ActionConstraint {
    ghost eq = { on rule_of same_rule };

    ghost laws = { partial_equiv_from_equiv (on_equiv rule_of same_rule_equiv) };

    fn eq(&self, other: &ActionConstraint) -> bool {
        self.compare(other).is_eq()
    }
}

impl Eq for ActionConstraint {
    ghost laws = { on_equiv rule_of same_rule_equiv };
}

impl PartialOrd for ActionConstraint {
    ghost partial_cmp = { as_partial_cmp (on rule_of rule_cmp) };

    ghost laws = { po (on_total rule_of rule_cmp_total) (λ x y. refl) };

    fn partial_cmp(&self, other: &ActionConstraint) -> Option<Ordering> {
        Some(self.cmp(other))
    }
}

impl Ord for ActionConstraint {
    ghost cmp = { on rule_of rule_cmp };

    ghost total = { on_total rule_of rule_cmp_total };

    ghost matches_partial_cmp = { λ x y. refl };

    ghost matches_eq = { λ x y. refl };

    fn cmp(&self, other: &ActionConstraint) -> Ordering {
        self.compare(other)
    }
}

impl Hash for ActionConstraint {
    ghost hash_input = { λ c. rule_hash (rule_of c) };

    ghost respects_eq = { λ x y e. rule_hash_respects (rule_of x) (rule_of y) e };

    fn hash<H: Hasher>(&self, state: &mut H) {
        self.kind().hash(state);
        match self {
            ActionConstraint::Any => hash_list(&[], state),
            ActionConstraint::In(euids) => hash_list(euids, state),
            ActionConstraint::Eq(euid) => hash_list(slice::from_ref(euid), state),
            ActionConstraint::InSlot(_) => hash_list(&[], state),
            ActionConstraint::EqSlot(_) => hash_list(&[], state),
        }
    }
}

// Feeds a list of uids to the hasher.
#[tactic(auto, using(crate::proofs::UidLists::shared_lists_fed))]
fn hash_list<H: Hasher>(euids: &[Rc<EntityUID>], state: &mut H)
    ensures { state.new ≡ fold H.write state.old
        (fed.slice uid_hash_input (map (λ u. uid_parts u.value) euids.now)) }
{
    euids.hash(state);
}
