//! The store of a run, with one function for each command.
ghost use Rattle.std.specs.Prelude.{◌≡◌, ◌++◌, [], ◌∷◌, List, ℕ, IfErr, IfOk, OnOk, codes, map};
ghost use Rattle.std.specs.List.{flat_map};
ghost use Rattle.std.specs.Fmt.{decimal};
ghost use Rattle.cedar_lines.specs.Lines.{written_line};
ghost use Rattle.cedar_entity_lines.specs.EntityCommand.{Ent, Build, Add, Upsert, Remove, Slice};
ghost use Rattle.cedar_entity_lines.specs.EntityOutput.{EntityState, no_entity, WritesAncestors, uid_text, field_of};
ghost use Rattle.cedar_entity_lines.specs.CommandOf.{entity_command_of};
ghost use Rattle.cedar_entity_lines.specs.Holding.{Holds, EntityWrites, RunsEntityFields, IsAsciiUid, AreAsciiUids};
ghost use Rattle.cedar_entity_lines.specs.Holding.{HasAsciiUids};
ghost use Rattle.cedar_entity_lines.specs.laws.Machines.{IsTold, Refused, KeepsAndTells};

use crate::command::EntityCommand;
use crate::parent_fields::KnownUids;
use crate::parse_entity::{entity_of_fields, shared_entity};
use cedar_entities::{Entities, EntitiesError, Entity, TCComputation};
use cedar_graph::TcError;
use cedar_ids::entity::EntityUID;
use cedar_lines::writing::push_line;
use cedar_slice::slice;
use cedar_uid_sets::{SharedUid, UidSet, Union};
use std::alloc::{AllocError, Global};
use std::hash::{BuildHasher, BuildHasherDefault, FoldHasher};
use std::marker::Model;
use std::mem;
use std::rc::Rc;

/// The store of a run, and the entities that are queued for it. Contracts see both, but not the builder of hashers.
///
/// # Differences from cedar-policy-core
///
/// The original has no such type.
#[derive(Debug, Drop)]
pub struct LineStore<S: BuildHasher = BuildHasherDefault<FoldHasher>> {
    waiting: Vec<Rc<Entity>>,
    store: Entities<S>,
}

impl<S: BuildHasher> Model for LineStore<S> {
    ghost use Rattle.cedar_entity_maps.specs.Plain.{entities_in};
    ghost use Rattle.cedar_entity_lines.specs.Codes.{waiting_code};
    ghost use Rattle.cedar_entity_lines.specs.Holding.{StoreAndWaiting};

    ghost Value = { StoreAndWaiting };

    ghost coded = { waiting_code };

    ghost view = { λ s. record { waiting = entities_in s.waiting.items; store = s.store } };
}

// Writes `ok` and the number of entities.
fn push_count(alloc: Global, out: &mut Vec<u8>, count: usize) -> Result<(), AllocError>
    ensures { OnOk result (out.new.items
        ≡ out.old.items ++ written_line (codes "ok " ++ decimal count)) }
{
    let text = format!(in alloc; "ok {count}")?;
    push_line(out, text.as_str())
}

// Writes the error of an entity that differs from another one with this uid.
fn push_duplicate(alloc: Global, out: &mut Vec<u8>, uid: &EntityUID) -> Result<(), AllocError>
    ensures { OnOk result (IsAsciiUid uid.now → out.new.items ≡
        out.old.items ++ written_line (codes "refused: duplicate " ++ uid_text uid.now)) }
{
    let text = format!(in alloc; "refused: duplicate {uid}")?;
    push_line(out, text.as_str())
}

// Writes the error of a call on the store.
fn push_refusal(alloc: Global, out: &mut Vec<u8>, error: &EntitiesError) -> Result<(), AllocError>
    requires { IsTold error.now }
    ensures { OnOk result (Refused error.now out.old.items out.new.items) }
{
    match error {
        EntitiesError::Duplicate(uid) => push_duplicate(alloc, out, uid),
        EntitiesError::TransitiveClosureError(TcError::HasCycle(_)) => push_line(
            out,
            "refused: cycle",
        ),
        EntitiesError::Memory => Err(AllocError),
        EntitiesError::TransitiveClosureError(TcError::MissingTcEdge(_)) => unreachable!(),
        EntitiesError::TransitiveClosureError(TcError::Memory) => unreachable!(),
        EntitiesError::SelfAncestor { .. } => unreachable!(),
        EntitiesError::DuplicateAncestor { .. } => unreachable!(),
        EntitiesError::ActionParentIsNotAction { .. } => unreachable!(),
        EntitiesError::ReservedKey(_) => unreachable!(),
    }
}

// The initial capacity for a field, enough for most fields.
const FIELD: usize = 64;

// Writes a tab and a uid. `text` is a buffer, whose old content is ignored.
fn push_field(out: &mut Vec<u8>, text: &mut String, uid: &EntityUID) -> Result<(), AllocError>
    ensures { OnOk result (IsAsciiUid uid.now → out.new.items ≡ out.old.items ++ field_of uid.now) }
{
    text.clear();
    write!(text, "\t{uid}")?;
    out.extend_from_slice(text.as_bytes())
}

// Writes the uids, each after a tab.
fn push_fields(alloc: Global, out: &mut Vec<u8>, uids: Union<'_>) -> Result<(), AllocError>
    ensures { OnOk result (AreAsciiUids uids.entry →
        out.new.items ≡ out.old.items ++ flat_map field_of uids.entry) }
{
    let mut text = String::with_capacity(alloc, FIELD)?;
    for uid in uids {
        push_field(out, &mut text, uid)?;
    }
    Ok(())
}

// Writes the line with an entity's ancestors.
fn push_ancestors(alloc: Global, out: &mut Vec<u8>, uids: Union<'_>) -> Result<(), AllocError>
    ensures { OnOk result (AreAsciiUids uids.entry → out.new.items ≡
        out.old.items ++ written_line (codes "anc" ++ flat_map field_of uids.entry)) }
{
    out.extend_from_slice(b"anc")?;
    push_fields(alloc, out, uids)?;
    out.push(b'\n')?;
    Ok(())
}

impl LineStore {
    /// Creates an empty store and an empty queue, with the default hasher. Does not allocate.
    pub fn new(alloc: Global) -> LineStore
        ensures { Holds result no_entity }
    {
        LineStore::with_hasher(alloc, BuildHasherDefault::new())
    }
}

impl<S: BuildHasher + Copy> LineStore<S> {
    /// Creates an empty store and an empty queue, with this builder of hashers. Does not allocate.
    pub fn with_hasher(alloc: Global, hasher: S) -> LineStore<S>
        ensures { Holds result no_entity }
    {
        LineStore {
            waiting: Vec::new(alloc),
            store: Entities::with_hasher(alloc, hasher),
        }
    }

    // Runs `ent`: queues an entity.
    fn ent(
        &mut self,
        alloc: Global,
        uid: EntityUID,
        parents: Vec<SharedUid>,
    ) -> Result<(), AllocError>
        ensures { OnOk result ((s : EntityState) → Holds self.old s → AreAsciiUids (uid ∷ parents.items) →
            (out : List ℕ) → EntityWrites (Ent uid parents.items) s self.new out out) }
    {
        let parents = UidSet::from_pointers(parents)?;
        let entity = shared_entity(alloc, uid, parents)?;
        self.waiting.push(entity)?;
        Ok(())
    }

    // Stores the result of a call and writes the number of its entities. After an error the store is empty, and the
    // error is written.
    fn store_and_report(
        &mut self,
        alloc: Global,
        given: Result<Entities<S>, EntitiesError>,
        out: &mut Vec<u8>,
    ) -> Result<(), AllocError>
        requires { IfErr given IsTold }
        ensures waiting { self.new.waiting ≡ self.old.waiting }
        ensures tells { OnOk result (KeepsAndTells given self.new out.old.items out.new.items) }
    {
        match given {
            Ok(store) => {
                self.store = store;
                push_count(alloc, out, self.store.len())
            }
            Err(error) => {
                self.store = Entities::with_hasher(alloc, *self.store.hasher());
                let told = push_refusal(alloc, out, &error);
                drop(error);
                told
            }
        }
    }

    // Runs `add`: adds the queued entities to the store.
    fn add(&mut self, alloc: Global, out: &mut Vec<u8>) -> Result<(), AllocError>
        ensures { OnOk result ((s : EntityState) → Holds self.old s →
            EntityWrites Add s self.new out.old.items out.new.items) }
    {
        let list = mem::replace(&mut self.waiting, Vec::new(alloc));
        let hasher = *self.store.hasher();
        let store = mem::replace(&mut self.store, Entities::with_hasher(alloc, hasher));
        let given = store.add_entities(alloc, list, TCComputation::ComputeNow);
        self.store_and_report(alloc, given, out)
    }

    // Runs `build`: replaces the store by a store of the queued entities.
    fn build(&mut self, alloc: Global, out: &mut Vec<u8>) -> Result<(), AllocError>
        ensures { OnOk result ((s : EntityState) → Holds self.old s →
            EntityWrites Build s self.new out.old.items out.new.items) }
    {
        self.store = Entities::with_hasher(alloc, *self.store.hasher());
        self.add(alloc, out)
    }

    // Runs `upsert`: adds the queued entities to the store, and replaces entities with the same uids.
    fn upsert(&mut self, alloc: Global, out: &mut Vec<u8>) -> Result<(), AllocError>
        ensures { OnOk result ((s : EntityState) → Holds self.old s →
            EntityWrites Upsert s self.new out.old.items out.new.items) }
    {
        let list = mem::replace(&mut self.waiting, Vec::new(alloc));
        let hasher = *self.store.hasher();
        let store = mem::replace(&mut self.store, Entities::with_hasher(alloc, hasher));
        let given = store.upsert_entities(alloc, list, TCComputation::ComputeNow);
        self.store_and_report(alloc, given, out)
    }

    // Runs `remove`: removes the entities with these uids.
    fn remove(
        &mut self,
        alloc: Global,
        uids: Vec<EntityUID>,
        out: &mut Vec<u8>,
    ) -> Result<(), AllocError>
        ensures { OnOk result ((s : EntityState) → Holds self.old s →
            EntityWrites (Remove uids.items) s self.new out.old.items out.new.items) }
    {
        let hasher = *self.store.hasher();
        let store = mem::replace(&mut self.store, Entities::with_hasher(alloc, hasher));
        let given = store.remove_entities(alloc, uids, TCComputation::ComputeNow);
        self.store_and_report(alloc, given, out)
    }

    // Runs `slice`: replaces the store by its slice at these uids.
    fn slice(
        &mut self,
        alloc: Global,
        uids: Vec<EntityUID>,
        out: &mut Vec<u8>,
    ) -> Result<(), AllocError>
        ensures { OnOk result ((s : EntityState) → Holds self.old s →
            EntityWrites (Slice uids.items) s self.new out.old.items out.new.items) }
    {
        let given = slice(alloc, &self.store, &uids);
        self.store_and_report(alloc, given, out)
    }

    // Runs `anc`: writes the ancestors of an entity.
    fn anc(&self, alloc: Global, uid: &EntityUID, out: &mut Vec<u8>) -> Result<(), AllocError>
        ensures { OnOk result ((s : EntityState) → Holds self.now s →
            (text : List ℕ) × WritesAncestors s.input_store uid.now text × (out.new.items ≡ out.old.items ++ text)) }
    {
        match self.store.stored(uid) {
            None => push_line(out, "no entity"),
            Some(entity) => push_ancestors(alloc, out, entity.ancestors_in_order()),
        }
    }

    /// Queues an entity if the fields of a line are `ent` with a uid and its parents, and returns whether they are. Any
    /// other fields change nothing. The effect is the same as [`LineStore::take`] with that command, but no command is
    /// created, because most lines are of this kind. The types and parents are cached in `known` and shared with later
    /// lines.
    ///
    /// # Errors
    ///
    /// Returns `AllocError` if an allocation fails. The state of the store and of the queue is then unspecified.
    ///
    /// # Differences from cedar-policy-core
    ///
    /// The original has no such function.
    pub fn apply_ent(
        &mut self,
        alloc: Global,
        known: &mut KnownUids,
        fields: &[&str],
    ) -> Result<bool, AllocError>
        ensures { IfOk result (λ taken. RunsEntityFields taken (map (λ f. f.now) fields.now) self.old self.new) }
    {
        let Some((word, rest)) = fields.split_first() else {
            return Ok(false);
        };
        if *word == "ent" {
            let Some(entity) = entity_of_fields(alloc, known, rest)? else {
                return Ok(false);
            };
            self.waiting.push(entity)?;
            return Ok(true);
        }
        Ok(false)
    }

    /// Runs a command on the store, and appends its output to `out`. The caller must ensure that the uids of inserted
    /// entities and their parents have ASCII eids, as the uids of lines do. Otherwise the output is unspecified.
    ///
    /// # Errors
    ///
    /// Returns `AllocError` if an allocation fails. The state of the store and of the queue and the bytes appended to
    /// `out` are then unspecified. An error of the command itself is written to `out`, and is not an error of this
    /// function.
    ///
    /// # Complexity
    ///
    /// The cost of the call on the store, and of the output.
    ///
    /// # Differences from cedar-policy-core
    ///
    /// The original has no such function.
    pub fn take(
        &mut self,
        alloc: Global,
        command: EntityCommand,
        out: &mut Vec<u8>,
    ) -> Result<(), AllocError>
        ensures { OnOk result ((s : EntityState) → Holds self.old s → HasAsciiUids (entity_command_of command) →
            EntityWrites (entity_command_of command) s self.new out.old.items out.new.items) }
    {
        match command {
            EntityCommand::Ent(uid, parents) => self.ent(alloc, uid, parents),
            EntityCommand::Build => self.build(alloc, out),
            EntityCommand::Add => self.add(alloc, out),
            EntityCommand::Upsert => self.upsert(alloc, out),
            EntityCommand::Remove(uids) => self.remove(alloc, uids, out),
            EntityCommand::Slice(uids) => self.slice(alloc, uids, out),
            EntityCommand::Anc(uid) => self.anc(alloc, &uid, out),
        }
    }
}
