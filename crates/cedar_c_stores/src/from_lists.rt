//! Entities from the lists and the content of a caller.
ghost use Rattle.std.specs.Prelude.{MatchResult};
ghost use Rattle.cedar_entity_maps.specs.Plain.{entities_in};
ghost use Rattle.cedar_c_stores.specs.Contents.{AreFromLists, IsNotFromLists, from_lists_by};
ghost use Rattle.cedar_c_stores.specs.laws.Rows.{AreSaid, IsUnsaid};

use crate::content::Content;
use crate::known::Known;
use crate::listing::shared_all;
use crate::rows::{Row, entities_of_rows, first_rows, push_ancestors_of_rows, push_terms};
use crate::store_calls::EntityLists;
use cedar_c_lists::Reason;
use cedar_entities::Entity;
use cedar_uid_sets::SharedUid;
use std::alloc::Global;
use std::rc::Rc;

// Collects the parts of the first `lists.count` entities.
fn rows_from_lists(
    alloc: Global,
    uids: &[SharedUid],
    lists: EntityLists<'_>,
    content: Content<'_>,
) -> Result<Vec<Row>, Reason>
    ensures { MatchResult result (λ v. AreSaid uids.now (from_lists_by lists.entry content.entry) v.items)
        (IsUnsaid uids.now (from_lists_by lists.entry content.entry)) }
{
    let mut rows = first_rows(alloc, uids, lists.count, lists.edges)?;
    push_ancestors_of_rows(&mut rows, uids, content.above)?;
    push_terms(alloc, &mut rows, lists.text, content.nodes, content.terms)?;
    Ok(rows)
}

// Creates the entities in lists with their content. Parses each uid, edge, term and node once, and sorts the parents,
// ancestors and keys of each entity.
//
// Returns the errors of `entities_of`, and: `BadArgument` if an edge to an indirect ancestor, the entity or the kind of
// a term, its key, or its nodes are out of range; `NotUtf8` if a key is not UTF-8; and the errors of `partial_value_of`
// for the nodes of a term.
pub(crate) fn entities_from_lists(
    alloc: Global,
    known: &mut Known,
    lists: EntityLists<'_>,
    content: Content<'_>,
) -> Result<Vec<Rc<Entity>>, Reason>
    ensures { MatchResult result (λ v. AreFromLists (from_lists_by lists.entry content.entry) (entities_in v.items))
        (IsNotFromLists (from_lists_by lists.entry content.entry)) }
{
    let uids = shared_all(alloc, known.uids_of(alloc, lists.text, lists.uids)?)?;
    match rows_from_lists(alloc, &uids, lists, content) {
        Ok(rows) => Ok(entities_of_rows(alloc, rows)?),
        Err(reason) => Err(reason),
    }
}
