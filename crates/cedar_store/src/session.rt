//! A session, which runs the lines of the program one at a time.
ghost use Rattle.std.specs.Prelude.{◌≡◌, ◌++◌, IfOk, OnOk, OnErr, IsErr, map};
ghost use Rattle.cedar_store.specs.Command.{Entity, Policy};
ghost use Rattle.cedar_store.specs.Sessions.{IsInState, IsLost, RunsLine};
ghost use Rattle.cedar_store.specs.laws.Sessions.{TakesKind, begins_with_ent};
ghost use Rattle.cedar_store.specs.Output.{State, start, not_command};

use cedar_entity_lines::{KnownUids, LineStore, read_entity_command};
use cedar_lines::line::read_fields;
use cedar_lines::writing::push_line;
use cedar_policy_lines::PolicySets;
use std::alloc::{AllocError, Global};
use std::hash::{BuildHasher, BuildHasherDefault, FoldHasher};
use std::marker::Model;

/// The state of the program between two lines: the store with its queued entities, and the two policy sets. A session
/// runs lines and appends their output to a buffer. [`run`](crate::run) uses one for its input.
///
/// After an allocation failure the session is lost: the state of its store and sets is unspecified, and each further
/// line returns an error.
///
/// Contracts see the store, the queue, the policy sets and whether the session is lost, but not the builder of hashers.
///
/// # Differences from cedar-policy-core
///
/// The original has no such type.
// `known` caches the entity types and parents of earlier lines. The cache is not a part of the state that contracts
// see.
#[derive(Drop)]
pub struct Session<S: BuildHasher = BuildHasherDefault<FoldHasher>> {
    entities: LineStore<S>,
    sets: PolicySets<S>,
    known: KnownUids,
    is_lost: bool,
}

impl<S: BuildHasher> Model for Session<S> {
    ghost use Rattle.cedar_store.specs.Codes.{session_code};
    ghost use Rattle.cedar_store.specs.Sessions.{SessionView};

    ghost Value = { SessionView };

    ghost coded = { session_code };

    ghost view = { λ s. record { entities = s.entities; policy_sets = s.sets; is_lost = s.is_lost } };
}

/// Appends to `out` the program's message for a line that is not a command: `line N: not a command` and a line feed,
/// where `N` is the number of the line.
///
/// # Errors
///
/// Returns `AllocError` if an allocation fails. The bytes appended to `out` are then unspecified.
///
/// # Differences from cedar-policy-core
///
/// The original has no such function.
pub fn push_not_command(alloc: Global, out: &mut Vec<u8>, number: usize) -> Result<(), AllocError>
    ensures { OnOk result (out.new.items ≡ out.old.items ++ not_command number) }
{
    let text = format!(in alloc; "line {number}: not a command")?;
    push_line(out, text.as_str())
}

// Checks whether the first field is `ent`.
fn begins_with_ent(fields: &[&str]) -> bool
    ensures { result ≡ begins_with_ent (map (λ f. f.now) fields.now) }
{
    let Some((word, _rest)) = fields.split_first() else {
        return false;
    };
    *word == "ent"
}

impl Session {
    /// Creates a session with an empty store, an empty queue and two empty policy sets. Does not allocate.
    ///
    /// The maps hash ids with a fixed seed. If untrusted parties choose the ids, use [`Session::with_hasher`] with a
    /// randomly keyed builder.
    ///
    /// # Differences from cedar-policy-core
    ///
    /// The original has no such function.
    pub fn new(alloc: Global) -> Session
        ensures { IsInState result start }
    {
        Session::with_hasher(alloc, BuildHasherDefault::new())
    }
}

impl<S: BuildHasher + Copy> Session<S> {
    /// Creates a session as [`Session::new`] does, with maps that use this builder of hashers. The choice of hasher
    /// never changes the output.
    pub fn with_hasher(alloc: Global, hasher: S) -> Session<S>
        ensures { IsInState result start }
    {
        Session {
            entities: LineStore::with_hasher(alloc, hasher),
            sets: PolicySets::with_hasher(alloc, hasher),
            known: KnownUids::new(alloc),
            is_lost: false,
        }
    }

    // Runs the fields of a line if they are a command on the store, and returns whether they are.
    fn apply_to_store(
        &mut self,
        alloc: Global,
        fields: &[&str],
        out: &mut Vec<u8>,
    ) -> Result<bool, AllocError>
        ensures { IfOk result (λ taken. (s : State) → IsInState self.old s →
            TakesKind Entity taken (map (λ f. f.now) fields.now) s self.new out.old.items out.new.items) }
    {
        match read_entity_command(alloc, &mut self.known, fields)? {
            None => Ok(false),
            Some(command) => {
                self.entities.take(alloc, command, out)?;
                Ok(true)
            }
        }
    }

    // Runs the fields of a line if they are a command on policy sets, and returns whether they are.
    fn apply_to_sets(
        &mut self,
        alloc: Global,
        fields: &[&str],
        out: &mut Vec<u8>,
    ) -> Result<bool, AllocError>
        ensures { IfOk result (λ taken. (s : State) → IsInState self.old s →
            TakesKind Policy taken (map (λ f. f.now) fields.now) s self.new out.old.items out.new.items) }
    {
        self.sets
            .apply_fields(alloc, self.known.types(), fields, out)
    }

    // Runs a line if it is a command, and returns whether it is. `fields` is a buffer that callers reuse: its old
    // content is ignored, and a line that is not empty overwrites it.
    //
    // The checks are in the order that is fastest for typical input. An empty line is recognized before its fields are
    // read. Lines `ent` come first, since most lines declare entities. Lines on policy sets are checked next, because
    // they are cheaper than the other commands on the store. A command is passed directly from its reader to the store
    // or the sets.
    pub(crate) fn apply_fields_of<'a>(
        &mut self,
        alloc: Global,
        fields: &mut Vec<&'a str>,
        line: &'a [u8],
        out: &mut Vec<u8>,
    ) -> Result<bool, AllocError>
        ensures { IfOk result (λ known. (s : State) → IsInState self.old s →
            RunsLine known line.now s self.new out.old.items out.new.items) }
    {
        if line.is_empty() {
            return Ok(true);
        }
        let is_text = read_fields(fields, line)?;
        if !is_text {
            return Ok(false);
        }
        let waits = self.entities.apply_ent(alloc, &mut self.known, fields)?;
        if waits {
            return Ok(true);
        }
        let on_sets = self.apply_to_sets(alloc, fields, out)?;
        if on_sets {
            return Ok(true);
        }
        // A line `ent` that was not queued is not a command, and is not read a second time.
        if begins_with_ent(fields) {
            return Ok(false);
        }
        let on_store = self.apply_to_store(alloc, fields, out)?;
        if on_store {
            return Ok(true);
        }
        Ok(false)
    }

    /// Runs a line, given without its line feed, and returns whether it is a command. A line may contain any bytes. An
    /// empty line is a command that does nothing. See `docs/PROGRAM.md` for the commands.
    ///
    /// A command appends its output, which can be empty, to `out`. A line that is not a command changes neither the
    /// session nor `out`. The caller can report it with [`push_not_command`], as the program does.
    ///
    /// # Errors
    ///
    /// Returns `AllocError` if an allocation fails. The session is lost then. The state of its store and sets and the
    /// bytes appended to `out` are unspecified. In a lost session each further line returns `AllocError`, and appends
    /// nothing.
    ///
    /// # Complexity
    ///
    /// O(n), where n is the length of the line, and the cost of the command (see [`run`](crate::run)). Allocates as the
    /// command does.
    ///
    /// # Differences from cedar-policy-core
    ///
    /// The original has no such function.
    pub fn apply_line(
        &mut self,
        alloc: Global,
        line: &[u8],
        out: &mut Vec<u8>,
    ) -> Result<bool, AllocError>
        // If the session is in a state, it runs the line in that state.
        ensures takes { IfOk result (λ known. (s : State) → IsInState self.old s →
            RunsLine known line.now s self.new out.old.items out.new.items) }

        // After an allocation failure the session is lost.
        ensures lost { OnErr result (IsLost self.new) }

        // A lost session stays lost, and appends nothing.
        ensures stays { IsLost self.old → IsErr result × (out.new ≡ out.old) }
    {
        if self.is_lost {
            return Err(AllocError);
        }
        let mut fields = Vec::new(alloc);
        let known = self.apply_fields_of(alloc, &mut fields, line, out);
        self.is_lost = known.is_err();
        known
    }
}
