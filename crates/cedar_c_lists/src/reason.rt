//! The reasons for errors, with a status and a text for each.
ghost use Rattle.std.specs.Prelude.{◌≡◌};
ghost use Rattle.cedar_c_lists.specs.Reasons.{number_of, status_of, words_of, WritesBool};
ghost use Rattle.cedar_c_lists.specs.declared.reason.Reason.TheVariants as reasons;

use std::alloc::{AllocError, AllocFailed};

/// The reason for an error.
#[derive(Clone, Copy)]
pub enum Reason {
    /// An allocation failed.
    NoMemory,
    /// The handle is closed.
    Closed,
    /// A span, a position, a mode, an effect, or a number of slots is out of range.
    BadArgument,
    /// A text is not the text of a uid.
    NotAUid,
    /// The bytes of an id are not UTF-8.
    NotUtf8,
    /// The store has no such entity.
    NoEntity,
    /// Two entities with the same uid differ.
    Duplicate,
    /// A uid is one of its own ancestors.
    Cycle,
    /// An ancestor of an ancestor is missing.
    NotClosed,
    /// An entity is one of its own ancestors.
    SelfAncestor,
    /// A uid is both a parent and an indirect ancestor.
    DuplicateAncestor,
    /// An action has an ancestor that is not an action.
    ActionParentIsNotAction,
    /// A key of a record is reserved.
    ReservedKey,
    /// An id is already in use.
    Occupied,
    /// There is no template with the id to link.
    NoSuchTemplate,
    /// The bindings of a link do not match the slots of its template.
    Arity,
    /// The slot of the action is bound to a uid that is not an action.
    NotAnAction,
    /// The id of a link is already in use.
    IdConflict,
    /// The id to unlink is not in use.
    NoLink,
    /// The id to unlink is not the id of a link.
    NotALink,
    /// There is nothing with the id of the template to remove.
    NoTemplate,
    /// The template has links.
    WithLinks,
    /// The id is not the id of a template.
    NotATemplate,
    /// There is no policy with the id of the static policy to remove.
    NoStatic,
    /// The id is the id of a link.
    NotStatic,
    /// There is no body with the id.
    NoBody,
    /// A text is not a name.
    NotAName,
    /// A value or an expression has too many levels.
    TooDeep,
    /// The clause of a body has a slot.
    SlotInClause,
    /// The action constraint of a body has a uid that is not an action.
    NotActions,
    /// The clause of a body calls an unknown function.
    UnknownFunction,
    /// A link has a template without slots.
    SlotlessLink,
}

impl Reason {
    /// Returns the status of a reason, which is at least 1. Does not allocate.
    pub fn number(self) -> u32
        ensures { result ≡ number_of self }
    {
        match self {
            Reason::NoMemory => 1,
            Reason::Closed => 2,
            Reason::BadArgument => 3,
            Reason::NotAUid => 4,
            Reason::NotUtf8 => 5,
            Reason::NoEntity => 6,
            Reason::Duplicate => 7,
            Reason::Cycle => 8,
            Reason::NotClosed => 9,
            Reason::SelfAncestor => 10,
            Reason::DuplicateAncestor => 11,
            Reason::ActionParentIsNotAction => 12,
            Reason::ReservedKey => 13,
            Reason::Occupied => 14,
            Reason::NoSuchTemplate => 15,
            Reason::Arity => 16,
            Reason::NotAnAction => 17,
            Reason::IdConflict => 18,
            Reason::NoLink => 19,
            Reason::NotALink => 20,
            Reason::NoTemplate => 21,
            Reason::WithLinks => 22,
            Reason::NotATemplate => 23,
            Reason::NoStatic => 24,
            Reason::NotStatic => 25,
            Reason::NoBody => 26,
            Reason::NotAName => 27,
            Reason::TooDeep => 28,
            Reason::SlotInClause => 29,
            Reason::NotActions => 30,
            Reason::UnknownFunction => 31,
            Reason::SlotlessLink => 32,
        }
    }

    /// Returns the text of a reason. In an error text the names follow it. Does not allocate.
    pub fn words(self) -> &'static str
        ensures { result.now ≡ words_of self }
    {
        match self {
            Reason::NoMemory => "out of memory",
            Reason::Closed => "closed",
            Reason::BadArgument => "bad argument",
            Reason::NotAUid => "not a uid",
            Reason::NotUtf8 => "not UTF-8",
            Reason::NoEntity => "no entity",
            Reason::Duplicate => "duplicate entity",
            Reason::Cycle => "cycle at",
            Reason::NotClosed => "ancestors not closed at",
            Reason::SelfAncestor => "its own ancestor",
            Reason::DuplicateAncestor => "parent and indirect ancestor",
            Reason::ActionParentIsNotAction => "ancestor of an action that is none",
            Reason::ReservedKey => "reserved key",
            Reason::Occupied => "occupied",
            Reason::NoSuchTemplate => "no template to link",
            Reason::Arity => "arity:",
            Reason::NotAnAction => "not an action",
            Reason::IdConflict => "occupied",
            Reason::NoLink => "no link",
            Reason::NotALink => "not a link",
            Reason::NoTemplate => "no template",
            Reason::WithLinks => "template with links",
            Reason::NotATemplate => "not a template",
            Reason::NoStatic => "no static policy",
            Reason::NotStatic => "not a static policy",
            Reason::NoBody => "no body",
            Reason::NotAName => "not a name",
            Reason::TooDeep => "too deep",
            Reason::SlotInClause => "slot in the clause of",
            Reason::NotActions => "uid of no action in",
            Reason::UnknownFunction => "unknown function in",
            Reason::SlotlessLink => "link without slots",
        }
    }
}

impl From<AllocError> for Reason {
    ghost from_gives = { λ _ w. w ≡ reasons.NoMemory };

    fn from(_error: AllocError) -> Reason {
        Reason::NoMemory
    }
}

impl<T: Drop> From<AllocFailed<T>> for Reason {
    ghost from_gives = { λ _ w. w ≡ reasons.NoMemory };

    fn from(_error: AllocFailed<T>) -> Reason {
        Reason::NoMemory
    }
}

/// Returns the status of a result: 0 for `Ok`. Does not allocate.
pub fn status_of(answer: Result<(), Reason>) -> u32
    ensures { result ≡ status_of answer }
{
    match answer {
        Ok(()) => 0,
        Err(reason) => reason.number(),
    }
}

/// Returns the status of a Boolean result. For `Ok`, writes the Boolean to `out`. Does not allocate.
pub fn write_bool(answer: Result<bool, Reason>, out: &mut bool) -> u32
    ensures { WritesBool answer result out.old out.new }
{
    match answer {
        Ok(truth) => {
            *out = truth;
            0
        }
        Err(reason) => reason.number(),
    }
}
