//! The two policy sets of a run, with one function for each command.
ghost use Rattle.std.specs.Prelude.{◌≡◌, [], IfOk, OnOk, map};
ghost use Rattle.cedar_binding.specs.Views.{env_of};
ghost use Rattle.cedar_lines.specs.Reads.{ReadsAs};
ghost use Rattle.cedar_policy_lines.specs.TwoSets.{no_sets};
ghost use Rattle.cedar_policy_lines.specs.PolicyCommand.{Static as static_command, Template as template_command};
ghost use Rattle.cedar_policy_lines.specs.PolicyCommand.{Link as link_command, Unlink as unlink_command};
ghost use Rattle.cedar_policy_lines.specs.PolicyCommand.{Other as other_command, Merge as merge_command};
ghost use Rattle.cedar_policy_lines.specs.PolicyCommand.{IsPolicyCommand, Ids as ids_command};
ghost use Rattle.cedar_policy_lines.specs.CommandOf.{policy_command_of};
ghost use Rattle.cedar_policy_lines.specs.PolicyOutput.{PolicyWrites, RunsPolicyFields};
ghost use Rattle.cedar_policy_lines.specs.laws.PolicyReading.{link_of, static_of, template_of, unlink_of};
ghost use Rattle.cedar_policy_lines.specs.laws.Machines.{TakesAs};

use crate::command::{
    LinkRoom, PolicyCommand, no_id, read_static, read_template, read_unlink, read_with,
};
use crate::field::TemplateSlots;
use crate::making::{template, unconstrained};
use crate::writing::{
    push_by_linking, push_by_merging, push_by_set, push_by_unlinking, push_ids, push_ok,
};
use cedar_annotation::Annotations;
use cedar_body::Effect;
use cedar_ids::policy_id::PolicyID;
use cedar_lines::known_types::KnownTypes;
use cedar_policy::SlotEnv;
use cedar_policy_set::PolicySet;
use std::alloc::{AllocError, Global};
use std::hash::{BuildHasher, BuildHasherDefault, FoldHasher};
use std::marker::Model;
use std::mem;
use std::rc::Rc;

/// The two policy sets of a run: the current set, which most commands change, and the other set. Contracts see both
/// sets, but not the builder of hashers.
///
/// # Differences from cedar-policy-core
///
/// The original has no such type.
// `room` is reused by all links, and `unlinked` by all commands `unlink`. Their content between lines has no meaning. The
// bodies of all lines share `annotations`, which is empty.
#[derive(Debug, Drop)]
pub struct PolicySets<S: BuildHasher = BuildHasherDefault<FoldHasher>> {
    current: PolicySet<S>,
    aside: PolicySet<S>,
    room: LinkRoom,
    unlinked: PolicyID,
    annotations: Option<Rc<Annotations>>,
}

impl<S: BuildHasher> Model for PolicySets<S> {
    ghost use Rattle.std.specs.Prelude.{◌≡◌, [], IfSome};
    ghost use Rattle.cedar_policy_lines.specs.TwoSets.{TwoSets};
    ghost use Rattle.cedar_policy_lines.specs.Codes.{sets_code};

    ghost Value = { TwoSets };

    ghost coded = { sets_code };

    ghost view = { λ s. record { current = s.current; aside = s.aside } };

    ghost invariant = { λ s. IfSome s.annotations (λ a. a.value ≡ []) };
}

impl PolicySets {
    /// Creates two empty policy sets with the default hasher. Does not allocate.
    pub fn new(alloc: Global) -> PolicySets
        ensures { result ≡ no_sets }
    {
        PolicySets::with_hasher(alloc, BuildHasherDefault::new())
    }
}

impl<S: BuildHasher + Copy> PolicySets<S> {
    /// Creates two empty policy sets with this builder of hashers. Does not allocate.
    pub fn with_hasher(alloc: Global, hasher: S) -> PolicySets<S>
        ensures { result ≡ no_sets }
    {
        PolicySets {
            current: PolicySet::with_hasher(alloc, hasher),
            aside: PolicySet::with_hasher(alloc, hasher),
            room: LinkRoom::new(alloc),
            unlinked: no_id(alloc),
            annotations: None,
        }
    }

    /// Reads a command on policy sets from the fields of a line, as `read_policy_command` does. Returns nothing if the
    /// fields are not such a command. The sets do not change. A link is read into the buffers of the link before it, so
    /// a link that later fails allocates no map.
    ///
    /// # Errors
    ///
    /// Returns `AllocError` if an allocation fails. The sets are unchanged then.
    ///
    /// # Complexity
    ///
    /// O(n), where n is the total length of the fields. Allocates the ids, the bindings and new cache entries.
    ///
    /// # Differences from cedar-policy-core
    ///
    /// The original has no such function.
    pub fn read(
        &mut self,
        alloc: Global,
        known: &mut KnownTypes,
        fields: &[&str],
    ) -> Result<Option<PolicyCommand>, AllocError>
        ensures same { self.new ≡ self.old }
        ensures reads { IfOk result (ReadsAs (λ c. IsPolicyCommand c (map (λ f. f.now) fields.now)) policy_command_of) }
    {
        read_with(alloc, known, &mut self.room, fields)
    }

    // Returns a new reference to the shared empty annotations.
    fn annotations(&mut self, alloc: Global) -> Result<Rc<Annotations>, AllocError>
        ensures same { self.new ≡ self.old }
        ensures none { IfOk result (λ a. a.value ≡ []) }
    {
        if let Some(shared) = &self.annotations {
            return shared.clone();
        }
        let shared = Rc::new(alloc, Annotations::new(alloc))?;
        self.annotations = Some(shared.clone()?);
        Ok(shared)
    }

    // Runs `static`.
    fn add_static(
        &mut self,
        alloc: Global,
        id: PolicyID,
        effect: Effect,
        out: &mut Vec<u8>,
    ) -> Result<(), AllocError>
        ensures { OnOk result (PolicyWrites (static_command id effect) self.old self.new out.old.items out.new.items) }
    {
        let annotations = self.annotations(alloc)?;
        let policy = unconstrained(alloc, annotations, id, effect)?;
        let answer = self.current.add_static(alloc, policy);
        push_by_set(alloc, out, answer)
    }

    // Runs `template`.
    fn add_template(
        &mut self,
        alloc: Global,
        id: PolicyID,
        slots: TemplateSlots,
        out: &mut Vec<u8>,
    ) -> Result<(), AllocError>
        ensures { OnOk result (PolicyWrites (template_command id slots) self.old self.new out.old.items out.new.items) }
    {
        let annotations = self.annotations(alloc)?;
        let template = template(alloc, annotations, id, slots)?;
        let answer = self.current.add_template(alloc, template);
        push_by_set(alloc, out, answer)
    }

    // Runs `link`.
    fn link(
        &mut self,
        alloc: Global,
        template_id: PolicyID,
        new_id: PolicyID,
        values: SlotEnv,
        out: &mut Vec<u8>,
    ) -> Result<(), AllocError>
        ensures { OnOk result (PolicyWrites (link_command template_id new_id
            (env_of values)) self.old self.new out.old.items out.new.items) }
    {
        let answer = self
            .current
            .link_copying(alloc, &template_id, new_id, &values);
        self.room.keep(template_id, values);
        push_by_linking(alloc, out, answer)
    }

    // Runs the fields after `static` if they are a command, and returns whether they are.
    fn apply_static(
        &mut self,
        alloc: Global,
        fields: &[&str],
        out: &mut Vec<u8>,
    ) -> Result<bool, AllocError>
        ensures { IfOk result (λ taken. TakesAs (static_of (map (λ f. f.now) fields.now)) taken
            self.old self.new out.old.items out.new.items) }
    {
        match read_static(alloc, fields)? {
            None => Ok(false),
            Some((id, effect)) => {
                self.add_static(alloc, id, effect, out)?;
                Ok(true)
            }
        }
    }

    // Runs the fields after `template` if they are a command, and returns whether they are.
    fn apply_template(
        &mut self,
        alloc: Global,
        fields: &[&str],
        out: &mut Vec<u8>,
    ) -> Result<bool, AllocError>
        ensures { IfOk result (λ taken. TakesAs (template_of (map (λ f. f.now) fields.now)) taken
            self.old self.new out.old.items out.new.items) }
    {
        match read_template(alloc, fields)? {
            None => Ok(false),
            Some((id, slots)) => {
                self.add_template(alloc, id, slots, out)?;
                Ok(true)
            }
        }
    }

    // Runs the fields after `link` if they are a command, and returns whether they are. The link is made from the
    // buffers in which it was read.
    fn apply_link(
        &mut self,
        alloc: Global,
        known: &mut KnownTypes,
        fields: &[&str],
        out: &mut Vec<u8>,
    ) -> Result<bool, AllocError>
        ensures { IfOk result (λ taken. TakesAs (link_of (map (λ f. f.now) fields.now)) taken
            self.old self.new out.old.items out.new.items) }
    {
        let Some(id) = self.room.read(alloc, known, fields)? else {
            return Ok(false);
        };
        let room = &self.room;
        let answer = self
            .current
            .link_copying(alloc, &room.template, id, &room.values);
        push_by_linking(alloc, out, answer)?;
        Ok(true)
    }

    // Runs the fields after `unlink` if they are a command, and returns whether they are.
    fn apply_unlink(
        &mut self,
        alloc: Global,
        fields: &[&str],
        out: &mut Vec<u8>,
    ) -> Result<bool, AllocError>
        ensures { IfOk result (λ taken. TakesAs (unlink_of (map (λ f. f.now) fields.now)) taken
            self.old self.new out.old.items out.new.items) }
    {
        if !read_unlink(alloc, &mut self.unlinked, fields)? {
            return Ok(false);
        }
        let answer = self.current.unlink(&self.unlinked);
        push_by_unlinking(alloc, out, answer)?;
        Ok(true)
    }

    // Reads the fields of a line as a command and runs it. Returns whether they are a command.
    fn apply_command(
        &mut self,
        alloc: Global,
        known: &mut KnownTypes,
        fields: &[&str],
        out: &mut Vec<u8>,
    ) -> Result<bool, AllocError>
        ensures { IfOk result (λ taken. RunsPolicyFields taken (map (λ f. f.now) fields.now)
            self.old self.new out.old.items out.new.items) }
    {
        match self.read(alloc, known, fields)? {
            None => Ok(false),
            Some(command) => {
                self.take(alloc, command, out)?;
                Ok(true)
            }
        }
    }

    /// Runs the fields of a line if they are a command on policy sets, and returns whether they are. The effect is the
    /// same as [`PolicySets::read`] and then [`PolicySets::take`]. For insertions and `unlink` it creates no
    /// [`PolicyCommand`].
    ///
    /// # Errors
    ///
    /// Returns `AllocError` if an allocation fails. The state of the sets and the bytes appended to `out` are then
    /// unspecified. An error of the command itself is written to `out`, and is not an error of this function.
    ///
    /// # Complexity
    ///
    /// The cost of the call on the set, and of the output.
    ///
    /// # Differences from cedar-policy-core
    ///
    /// The original has no such function.
    pub fn apply_fields(
        &mut self,
        alloc: Global,
        known: &mut KnownTypes,
        fields: &[&str],
        out: &mut Vec<u8>,
    ) -> Result<bool, AllocError>
        ensures { IfOk result (λ taken. RunsPolicyFields taken (map (λ f. f.now) fields.now)
            self.old self.new out.old.items out.new.items) }
    {
        let Some((word, rest)) = fields.split_first() else {
            return Ok(false);
        };
        if *word == "link" {
            return self.apply_link(alloc, known, rest, out);
        }
        if *word == "static" {
            return self.apply_static(alloc, rest, out);
        }
        if *word == "template" {
            return self.apply_template(alloc, rest, out);
        }
        if *word == "unlink" {
            return self.apply_unlink(alloc, rest, out);
        }
        self.apply_command(alloc, known, fields, out)
    }

    // Runs `unlink`.
    fn unlink(&mut self, alloc: Global, id: &PolicyID, out: &mut Vec<u8>) -> Result<(), AllocError>
        ensures { OnOk result (PolicyWrites (unlink_command id.now) self.old self.new out.old.items out.new.items) }
    {
        let answer = self.current.unlink(id);
        push_by_unlinking(alloc, out, answer)
    }

    // Runs `other`: swaps the two sets.
    fn other(&mut self, out: &mut Vec<u8>) -> Result<(), AllocError>
        ensures { OnOk result (PolicyWrites other_command self.old self.new out.old.items out.new.items) }
    {
        mem::swap(&mut self.current, &mut self.aside);
        push_ok(out)
    }

    // Runs `merge`: merges the other set into the current one.
    fn merge(&mut self, alloc: Global, rename: bool, out: &mut Vec<u8>) -> Result<(), AllocError>
        ensures { OnOk result (PolicyWrites (merge_command rename) self.old self.new out.old.items out.new.items) }
    {
        let answer = self.current.merge_policyset(alloc, &self.aside, rename);
        push_by_merging(alloc, out, answer)
    }

    // Runs `ids`: writes the ids of the current set.
    fn ids(&self, alloc: Global, out: &mut Vec<u8>) -> Result<(), AllocError>
        ensures { OnOk result (PolicyWrites ids_command self.now self.now out.old.items out.new.items) }
    {
        push_ids(alloc, out, &self.current)
    }

    /// Runs a command on the two sets, and appends its output to `out`.
    ///
    /// # Errors
    ///
    /// Returns `AllocError` if an allocation fails. The state of the sets and the bytes appended to `out` are then
    /// unspecified. An error of the command itself is written to `out`, and is not an error of this function.
    ///
    /// # Complexity
    ///
    /// The cost of the call on the set, and of the output.
    ///
    /// # Differences from cedar-policy-core
    ///
    /// The original has no such function.
    pub fn take(
        &mut self,
        alloc: Global,
        command: PolicyCommand,
        out: &mut Vec<u8>,
    ) -> Result<(), AllocError>
        ensures { OnOk result (PolicyWrites (policy_command_of command) self.old self.new out.old.items out.new.items) }
    {
        match command {
            PolicyCommand::Static(id, effect) => self.add_static(alloc, id, effect, out),
            PolicyCommand::Template(id, slots) => self.add_template(alloc, id, slots, out),
            PolicyCommand::Link(template, id, values) => self.link(
                alloc, template, id, values, out,
            ),
            PolicyCommand::Unlink(id) => self.unlink(alloc, &id, out),
            PolicyCommand::Other => self.other(out),
            PolicyCommand::Merge(rename) => self.merge(alloc, rename, out),
            PolicyCommand::Ids => self.ids(alloc, out),
        }
    }
}
