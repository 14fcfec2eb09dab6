// Helpers that create the arguments of test cases. They pass values as `Option`, where `None` means that the value
// could not be created. Helpers that inspect a value drop it.
mod actions;
mod annotations;
mod bindings;
mod bodies;
mod cases;
mod constraints;
mod looking;
mod maps;
mod naming;
mod parts;
mod policies;
mod policy_diff;
mod raw;
mod reads;
mod replays;
mod sets;
mod statics;
mod templates;
mod three_hundred;
mod whole_sets;
mod worked;
mod worked_policies;

use cedar_alloc_failures::counted;
use cedar_ids::entity::{EntityType, EntityUID};
use cedar_ids::policy_id::PolicyID;
use std::alloc::Global;
use std::rc::Rc;

fn id(alloc: Global, text: &str) -> Option<PolicyID> {
    PolicyID::from_string(alloc, text).ok()
}

// Returns the uid of type `A` with this eid. `B.x` is the uid with type `B` and eid `x`.
fn uid(alloc: Global, name: &str) -> Option<EntityUID> {
    let (ty, eid) = name.split_once('.').unwrap_or(("A", name));
    match format!(in alloc; "{ty}::\"{eid}\"") {
        Ok(text) => {
            let made = EntityUID::from_normalized_str(alloc, text.as_str()).ok();
            drop(text);
            made
        }
        Err(_) => None,
    }
}

fn shared(alloc: Global, name: &str) -> Option<Rc<EntityUID>> {
    counted(alloc, uid(alloc, name))
}

fn shared_type(alloc: Global, text: &str) -> Option<Rc<EntityType>> {
    counted(alloc, EntityType::from_normalized_str(alloc, text).ok())
}
