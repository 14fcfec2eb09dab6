//! The store layer of the Cedar authorization language. This crate has the public names of the crates below it, and the
//! program that uses them.
//!
//! Most names have the module paths of cedar-policy-core. [`ast`] has ids, values, expressions, entities, templates,
//! policies and policy sets. [`entities`] has the store, and [`transitive_closure`] the closure functions.
//!
//! The other names have no counterpart in cedar-policy-core:
//!
//! - [`replay_entities`] applies a list of calls to a store, and [`replay_policies`] to a policy set.
//! - [`run`] reads lines and writes their results. A [`Session`] runs the lines one at a time.
//!
//! The contracts of the replay functions state the result of the calls. The contract of [`run`] states that it writes
//! the output of its input, defined in `specs/Output.antt`. It also states that each input has exactly one output.
#![tactic(auto, using(cedar_ids::specs::laws::UidOfLaws::same_uid_decides))]

mod program;
mod session;

pub use cedar_action::ActionConstraint;
pub use cedar_action::ActionTypesError;
pub use cedar_action::EntityIterator;
pub use cedar_annotation::Annotation;
pub use cedar_annotation::Annotations;
pub use cedar_dry_run::have_no_indirect;
pub use cedar_dry_run::would_add;
pub use cedar_dry_run::would_upsert;
pub use cedar_entities::Ancestors;
pub use cedar_entities::Dereference;
pub use cedar_entities::Entities;
pub use cedar_entities::EntitiesError;
pub use cedar_entities::Entity;
pub use cedar_entities::Keys;
pub use cedar_entities::Pairs;
pub use cedar_entities::SharedEntity;
pub use cedar_entities::SharedUid;
pub use cedar_entities::SharedUids;
pub use cedar_entities::TCComputation;
pub use cedar_entities::UidSet;
pub use cedar_entities::Uids;
pub use cedar_entity_diff::AncestryChange;
pub use cedar_entity_diff::ContentChange;
pub use cedar_entity_diff::StoreDiff;
pub use cedar_entity_diff::diff;
pub use cedar_entity_diff::would_change_by_add;
pub use cedar_entity_diff::would_change_by_remove;
pub use cedar_entity_diff::would_change_by_upsert;
pub use cedar_graph::HasCycle;
pub use cedar_graph::MissingTcEdge;
pub use cedar_graph::TCNode;
pub use cedar_graph::TcError;
pub use cedar_graph::Work;
pub use cedar_graph::compute_tc;
pub use cedar_graph::compute_tc_counted;
pub use cedar_graph::enforce_tc_and_dag;
pub use cedar_graph::repair_tc;
pub use cedar_graph::repair_tc_counted;
pub use cedar_ids::ACTION_ENTITY_TYPE;
pub use cedar_ids::AnyId;
pub use cedar_ids::Eid;
pub use cedar_ids::EntityType;
pub use cedar_ids::EntityUID;
pub use cedar_ids::EntityUIDImpl;
pub use cedar_ids::Escaped;
pub use cedar_ids::Id;
pub use cedar_ids::Loc;
pub use cedar_ids::Name;
pub use cedar_ids::NonEmpty;
pub use cedar_ids::ParseErrors;
pub use cedar_ids::PolicyID;
pub use cedar_naming::policies_naming;
pub use cedar_naming::policy_names;
pub use cedar_naming::template_names;
pub use cedar_naming::templates_naming;
pub use cedar_policy::Effect;
pub use cedar_policy::LinkingError;
pub use cedar_policy::Policy;
pub use cedar_policy::SlotEnv;
pub use cedar_policy::Slots;
pub use cedar_policy::StaticPolicy;
pub use cedar_policy::Template;
pub use cedar_policy::TemplateBody;
pub use cedar_policy::TemplateBodyImpl;
pub use cedar_policy::TemplateValidationError;
pub use cedar_policy::UnexpectedSlotError;
pub use cedar_policy_diff::PolicySetDiff;
pub use cedar_policy_diff::diff_policy_sets;
pub use cedar_policy_set::AllTemplates;
pub use cedar_policy_set::IntoPolicies;
pub use cedar_policy_set::Linked;
pub use cedar_policy_set::LinkedIds;
pub use cedar_policy_set::Policies;
pub use cedar_policy_set::PolicySet;
pub use cedar_policy_set::PolicySetError;
pub use cedar_policy_set::PolicySetGetLinksError;
pub use cedar_policy_set::PolicySetPolicyRemovalError;
pub use cedar_policy_set::PolicySetTemplateRemovalError;
pub use cedar_policy_set::PolicySetUnlinkError;
pub use cedar_policy_set::PolicySetValidationError;
pub use cedar_policy_set::StaticPolicies;
pub use cedar_policy_set::Templates;
pub use cedar_queries::descendants;
pub use cedar_queries::descendants_of_type;
pub use cedar_queries::path;
pub use cedar_queries::reaches;
pub use cedar_replay::Answer;
pub use cedar_replay::EntityCall;
pub use cedar_replay::PolicyCall;
pub use cedar_replay::replay_entities;
pub use cedar_replay::replay_entities_with_hasher;
pub use cedar_replay::replay_policies;
pub use cedar_scope::EntityReference;
pub use cedar_scope::PrincipalConstraint;
pub use cedar_scope::PrincipalOrResource;
pub use cedar_scope::PrincipalOrResourceConstraint;
pub use cedar_scope::ResourceConstraint;
pub use cedar_slice::slice;
pub use cedar_terms::Expr;
pub use cedar_terms::ExprNode;
pub use cedar_terms::ExprValidationError;
pub use cedar_terms::ExtensionValue;
pub use cedar_terms::Literal;
pub use cedar_terms::PartialValue;
pub use cedar_terms::Slot;
pub use cedar_terms::SlotId;
pub use cedar_terms::StaticType;
pub use cedar_terms::StaticallyTyped;
pub use cedar_terms::Unknown;
pub use cedar_terms::Value;
pub use cedar_terms::ValueKind;
pub use cedar_terms::Var;
pub use cedar_terms::is_reserved_key;
pub use cedar_uid_sets::Union;
pub use program::RunError;
pub use program::run;
pub use program::run_and_leave;
pub use program::run_and_leave_with;
pub use program::run_with;
pub use session::Session;
pub use session::push_not_command;

/// Bindings of slots, and the functions and errors on them.
pub mod bindings {
    pub use cedar_action::action::UidPairs;
    pub use cedar_binding::err::ArityText;
    pub use cedar_binding::{
        BindingPairs, bound_to, check_bindings, copy_of_bindings, no_bindings, same_bindings,
    };
}

/// Reachability in a graph of numbers, computed by strongly connected components.
pub mod components {
    pub use cedar_components::{Reached, reach};
}

/// Iterators over the entity types and uids that constraints contain.
pub mod iters {
    pub use cedar_action::iters::ActionTypeNames;
    pub use cedar_scope::iters::ConstraintTypeNames;
}

/// Functions on input lines: their fields, uids as fields, cached entity types, texts in reused buffers, and output
/// lines.
pub mod lines {
    pub use cedar_lines::field::uid_field;
    pub use cedar_lines::known_types::{KnownTypes, uid_in, uid_of_text};
    pub use cedar_lines::line::read_fields;
    pub use cedar_lines::room::text_in;
    pub use cedar_lines::writing::push_line;
}

/// Commands on the store: reading them, and the store with its queued entities that they change.
pub mod entity_lines {
    pub use cedar_entity_lines::{EntityCommand, KnownUids, LineStore, read_entity_command};
}

/// Commands on policy sets: reading them, and the two sets that they change.
pub mod policy_lines {
    pub use cedar_lines::field::uid_field;
    pub use cedar_lines::known_types::KnownTypes;
    pub use cedar_policy_lines::{PolicyCommand, PolicySets, TemplateSlots, read_policy_command};
}

/// Ids, names, uids, values, expressions, entities, scope constraints, templates, policies and policy sets.
pub mod ast {
    pub use cedar_action::{ActionConstraint, ActionTypesError, EntityIterator};
    pub use cedar_annotation::{Annotation, Annotations};
    pub use cedar_entities::Entity;
    pub use cedar_ids::{
        ACTION_ENTITY_TYPE, AnyId, Eid, EntityType, EntityUID, EntityUIDImpl, Id, Name, NonEmpty,
        ParseErrors, PolicyID,
    };
    pub use cedar_policy::{
        Effect, LinkingError, Policy, SlotEnv, StaticPolicy, Template, TemplateBody,
        TemplateBodyImpl, TemplateValidationError, UnexpectedSlotError,
    };
    pub use cedar_policy_set::{
        PolicySet, PolicySetError, PolicySetGetLinksError, PolicySetPolicyRemovalError,
        PolicySetTemplateRemovalError, PolicySetUnlinkError, PolicySetValidationError,
    };
    pub use cedar_scope::{
        EntityReference, Principal, PrincipalConstraint, PrincipalOrResource,
        PrincipalOrResourceConstraint, Resource, ResourceConstraint, ScopeVariable,
        VariableConstraint,
    };
    pub use cedar_terms::{
        Expr, ExprNode, ExprValidationError, ExtensionValue, Literal, PartialValue, Slot, SlotId,
        StaticType, StaticallyTyped, Unknown, Value, ValueKind, Var, is_reserved_key,
    };

    /// Annotations and their iterators. The iterators have the same names as the store's.
    pub mod annotation {
        pub use cedar_annotation::annotation::{Annotation, Annotations, IntoIter, Iter};
    }
}

/// The store of entities.
pub mod entities {
    pub use cedar_entities::{
        Dereference, Entities, EntitiesError, IntoIter, Iter, SharedEntity, TCComputation,
    };

    /// The errors of entities and of the store.
    pub mod err {
        pub use cedar_entities::EntitiesError;
    }
}

/// Source locations and parse errors.
pub mod parser {
    pub use cedar_ids::Loc;

    /// Parse errors.
    pub mod err {
        pub use cedar_ids::ParseErrors;
    }
}

/// Graph nodes, and the functions that compute and check transitive closures.
pub mod transitive_closure {
    pub use cedar_graph::{
        HasCycle, MissingTcEdge, Result, TCNode, TcError, Work, close_dag, compute_tc,
        compute_tc_counted, enforce_tc_and_dag, repair_dag, repair_tc, repair_tc_counted,
    };
}
