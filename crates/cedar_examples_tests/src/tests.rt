// The five uses, each with some test cases. Users and groups have the type `Team`.
mod sets;
mod stores;

use cedar_store::{EntityUID, PolicyID};
use cedar_test_helpers::rows::all_hold;
use std::alloc::Global;
use std::test::Fail;

// Returns the uid of a user or a group.
fn uid_of(alloc: Global, name: &str) -> Result<EntityUID, Fail> {
    Ok(EntityUID::with_eid_and_type(alloc, "Team", name)?)
}

// Returns the id with a text.
fn id_of(alloc: Global, text: &str) -> Result<PolicyID, Fail> {
    Ok(PolicyID::from_string(alloc, text)?)
}

// Returns the result of a use as a text.
fn tell(alloc: Global, what: &str) -> Result<String, Fail> {
    let (word, rest) = what.split_once(": ").unwrap_or((what, ""));
    let (given, asked) = rest.split_once("; ").unwrap_or((rest, ""));
    match word {
        "member" => stores::told_of_members(alloc, given, asked),
        "moved" => stores::left_by_moving(alloc, given, asked),
        "was" => stores::told_of_log(alloc, given, asked),
        "grant" => sets::left_by_granting(alloc, asked),
        _ => sets::left_by_taking_in(alloc, given, asked),
    }
}

const ROWS: &str =
    "# a user belongs to a group through another, and to none that it is not in; a refusal is told\n\
member: alice staff, staff all; alice all => true\n\
member: alice staff, staff all; all alice => false\n\
member: alice staff, staff staff; alice all => input graph has a cycle containing vertex `Team::\"staff\"`\n\
# a user goes to another group, and its old one is closed\n\
moved: alice staff, staff all; alice guests, staff => Team::\"alice\":¶  attrs:¶  ancestors:Team::\"guests\"¶\n\
# a log is asked at its end\n\
was: alice staff, staff all; alice all => true\n\
was: alice staff, staff all, -staff; alice all => false\n\
was: alice staff, staff staff; alice all => 1 input graph has a cycle containing vertex `Team::\"staff\"`\n\
# a template's principal is bound; a static policy is no template\n\
grant: set; t l alice => Template Instance of t, slots: [?principal -> Team::\"alice\"]\n\
grant: set; s l alice => failed to find a template with id `s`\n\
# an id of both sets with two effects is renamed\n\
take: a b; b c => 1: a b policy0 c";

#[test]
fn rows_of_the_five_uses_hold(rt: HostRuntime) -> Result<(), Fail> {
    all_hold(rt.alloc(), ROWS, tell)
}
