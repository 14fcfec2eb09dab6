//! The set of slots that the fields of a line have named.
ghost use Rattle.std.specs.Prelude.{◌≡◌, ◌||◌, false};
ghost use Rattle.cedar_terms.specs.SlotTree.{same_slot};
ghost use Rattle.cedar_terms.specs.declared.slot.SlotId.{SlotId};
ghost use Rattle.cedar_policy_lines.specs.laws.SlotFlagLaws.{is_named};

use cedar_terms::slot::SlotId;

// A set of slots.
#[derive(Clone, Copy, Debug)]
pub(crate) struct SlotFlags {
    principal: bool,
    action: bool,
    resource: bool,
}

impl SlotFlags {
    // Returns the empty set.
    pub(crate) fn none() -> SlotFlags
        ensures { (s : SlotId) → is_named result s ≡ false }
    {
        SlotFlags {
            principal: false,
            action: false,
            resource: false,
        }
    }

    // Returns whether the set contains a slot.
    pub(crate) fn has(self, slot: SlotId) -> bool
        ensures { result ≡ is_named self slot }
    {
        match slot {
            SlotId::Principal => self.principal,
            SlotId::Action => self.action,
            SlotId::Resource => self.resource,
        }
    }

    // Returns the set with one more slot.
    pub(crate) fn with(self, slot: SlotId) -> SlotFlags
        ensures { (s : SlotId) → is_named result s ≡ (same_slot s slot || is_named self s) }
    {
        match slot {
            SlotId::Principal => SlotFlags {
                principal: true,
                action: self.action,
                resource: self.resource,
            },
            SlotId::Action => SlotFlags {
                principal: self.principal,
                action: true,
                resource: self.resource,
            },
            SlotId::Resource => SlotFlags {
                principal: self.principal,
                action: self.action,
                resource: true,
            },
        }
    }
}
