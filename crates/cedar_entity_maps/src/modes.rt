//! The modes of edits, and their edit rules.
ghost use Rattle.std.specs.Prelude.{◌≡◌};
ghost use Rattle.cedar_entity_maps.specs.Modes.{computes, with_repair, rules_of};

/// The mode of a call: how it ensures that ancestors are complete.
///
/// An edit affects the entities that it adds or removes, and the entities that have one of them as an ancestor. In
/// every mode, a removal repairs the affected entities: they get all ancestors that they still reach.
#[derive(Clone, Copy, Debug, Drop, PartialEq, Eq, Hash)]
pub enum TCComputation {
    /// Added entities are expected to have all of their ancestors. Nothing is computed for them, for their ancestors or
    /// for their descendants. A removal repairs the affected entities. Nothing is checked.
    AssumeAlreadyComputed,
    /// Added entities are stored without changes, and a removal repairs the affected entities. Then the whole store is
    /// checked. An error is returned if an ancestor of an ancestor is missing, or if an entity is its own ancestor.
    EnforceAlreadyComputed,
    /// The affected entities get all ancestors that they reach, after a removal too. An error is returned if one of
    /// them reaches itself. Nothing else is checked.
    ComputeNow,
}

/// The edit rules of a mode. A removal repairs the affected entities in every mode.
#[derive(Clone, Copy, Debug, Drop)]
pub struct EditRules {
    /// Whether added entities, and the entities that have one of them as an ancestor, are repaired.
    pub repairs: bool,
    /// Whether a repair reports a cycle, before it writes an ancestor.
    pub refuses_cycles: bool,
    /// Whether the whole store is checked at the end: the ancestors are closed, and no entity is its own ancestor.
    pub checks: bool,
}

/// Returns the edit rules of a mode. Does not allocate.
pub fn rules_of(tc_computation: TCComputation) -> EditRules
    ensures { result ≡ rules_of tc_computation }
{
    match tc_computation {
        TCComputation::AssumeAlreadyComputed => EditRules {
            repairs: false,
            refuses_cycles: false,
            checks: false,
        },
        TCComputation::EnforceAlreadyComputed => EditRules {
            repairs: false,
            refuses_cycles: false,
            checks: true,
        },
        TCComputation::ComputeNow => EditRules {
            repairs: true,
            refuses_cycles: true,
            checks: false,
        },
    }
}

/// Returns the edit rules with repair on. A removal uses them. Does not allocate.
pub fn with_repair(row: EditRules) -> EditRules
    ensures { result ≡ with_repair row }
{
    EditRules {
        repairs: true,
        refuses_cycles: row.refuses_cycles,
        checks: row.checks,
    }
}

/// Returns whether the edit rules compute the closure of added entities: they repair, report a cycle, and check nothing
/// else. Does not allocate.
pub fn rules_compute(row: EditRules) -> bool
    ensures { result ≡ computes row }
{
    row.repairs && row.refuses_cycles && !row.checks
}

/// Returns whether a mode computes the closure of added entities. Does not allocate.
pub fn computes(tc_computation: TCComputation) -> bool
    ensures { result ≡ computes (rules_of tc_computation) }
{
    rules_compute(rules_of(tc_computation))
}
