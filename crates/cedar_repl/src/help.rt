//! The help texts of the program.
ghost use Rattle.std.specs.Prelude.{◌≡◌};
ghost use Rattle.std.specs.Option.{MatchOption};
ghost use Rattle.cedar_repl.specs.Help.{IsHelpOn, IsNoTopic};

/// The commands on a store of entities: the output for the line `help store`.
pub const STORE_HELP: &str = "\
Commands on the store of entities. Each prints \"ok N\" (N entities) unless stated otherwise.
ent UID PARENT..      queues an entity with its uid and the uids of its parents; prints nothing
build                 replaces the store with the queued entities
add                   adds the queued entities; an entity that already exists must be equal
upsert                adds the queued entities; an entity that already exists is replaced
remove UID..          removes these entities, also from the parents of other entities
slice UID..           keeps only these entities and their ancestors
anc UID               prints the ancestors of an entity, or \"no entity\"
";

/// The commands on policy sets: the output for the line `help policies`.
pub const POLICY_HELP: &str = "\
Commands on two policy sets, the current and the other set. Each prints \"ok\" unless stated otherwise.
static ID EFFECT      adds a static policy to the current set; EFFECT is permit or forbid
template ID SLOTS     adds a template; SLOTS is none, principal, action, resource, all or
                      both (principal and resource)
link ID NEW BINDING.. links the template ID under the new id NEW, with one binding for each slot:
                      principal=UID, action=UID or resource=UID
unlink ID             removes a link
other                 makes the other set the current one
merge HOW             adds the other set to the current one; if an id has different policies in the
                      two sets, HOW=keep reports an error and HOW=rename changes the id
ids                   prints the ids of the current set
";

/// The format of a line: the output for the line `help fields`.
pub const FIELD_HELP: &str = "\
Fields of a line are separated by one tab each, not by spaces. An empty line does nothing.
UID is the type and the id of an entity, for example User::\"alice\". ID is any printable ASCII text.
A command that fails prints \"refused:\" and the reason. If build, add or upsert fails, the store is emptied.
Any other line prints \"line N: not a command\". With --strict it also ends the program.
help prints this text. help store, help policies and help fields print one part of it.
";

/// Returns the three texts of the help. One after another they are the output for the line `help`, and of the program's
/// `--help`. Does not allocate.
///
/// # Differences from cedar-policy-core
///
/// The original has no such function.
pub fn help_texts() -> (&'static str, &'static str, &'static str)
    ensures store { result.0.now ≡ STORE_HELP.now }
    ensures policies { result.1.now ≡ POLICY_HELP.now }
    ensures fields { result.2.now ≡ FIELD_HELP.now }
{
    (STORE_HELP, POLICY_HELP, FIELD_HELP)
}

// Returns the help text for a line that asks for help on a topic.
pub(crate) fn help_on(line: &[u8]) -> Option<&'static str>
    ensures { MatchOption result (IsNoTopic line.now) (λ text. IsHelpOn line.now text.now) }
{
    if line == b"help store".as_slice() {
        Some(STORE_HELP)
    } else if line == b"help policies".as_slice() {
        Some(POLICY_HELP)
    } else if line == b"help fields".as_slice() {
        Some(FIELD_HELP)
    } else {
        None
    }
}
