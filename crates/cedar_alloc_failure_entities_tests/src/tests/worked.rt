// Worked examples of calls on entities, graphs and stores. They run once, with enough memory.
use super::closing::OnGraphs;
use super::entities::{OnChecking, OnMaking};
use super::stores::{OnReading, OnStores};
use cedar_alloc_failures::worked_rows;

const MAKING: &str = "
# the last of a key counts: how many attributes and tags, and which; the parents; the indirect ancestors
    Entity::new_with_attr_partial_value | a b / c / k=2 k=1 / | a b / c / k=1 /
# keys come in byte order, attributes and tags with their values
    Entity::new_with_attr_partial_value | a p / x y / é=3 b=2 Z=0 a=1 / t=1 s=2 t=3 | a p / x y / Z=0 a=1 b=2 é=3 / s=2 t=3
# parents come before indirect ancestors, shared ones too, and an ancestor may be both
    Entity::new_with_attr_partial_value | a z b / b c / / | a b z / b c / /
# an entity that takes its parents at once, and one that takes them one after another
    Entity::with_shared_parents | a,  | a / / /
    Entity::with_shared_parents | a, b | a b / / /
    Entity::with_shared_parents | a, b c N::A.a B.a | a b c a a / / /
    Entity::with_shared_parents | a, B.a N::A.a c b | a b c a a / / /
    Entity::with_shared_parents | a, c B.a b | a b c a / / /
    Entity::with_shared_parents | a, b b | a b / / /
    Entity::with_shared_parents | a, c b c B.a b | a b c a / / /
";

#[test]
fn what_calls_that_make_an_entity_answer(rt: HostRuntime) {
    assert!(rt; worked_rows(rt, &OnMaking, MAKING));
}

const CHECKING: &str = "
# no entity is its own ancestor, and no ancestor is a parent and an indirect one: the least is named
    Entity::validate | T.self T.self / / / | ! entity `T::\"self\"` is its own ancestor
    Entity::validate | T.self / T.self / / | ! entity `T::\"self\"` is its own ancestor
    Entity::validate | T.ok / / / | ok
    Entity::validate | T.child T.parent / T.parent / / | ! entity `T::\"child\"` has `T::\"parent\"` as parent and as indirect ancestor
    Entity::validate | T.child T.q T.p T.a / T.z T.p T.q / / | ! entity `T::\"child\"` has `T::\"p\"` as parent and as indirect ancestor
    Entity::validate | Action.v Action.v T.z / T.z / / | ! entity `Action::\"v\"` is its own ancestor
    Entity::validate | Action.v T.z / T.z / / | ! entity `Action::\"v\"` has `T::\"z\"` as parent and as indirect ancestor
# an action has actions alone above it: the least of the parents is named, or else of the indirect ancestors
    Entity::validate | Action.view User.x / / / | ! action `Action::\"view\"` has the ancestor `User::\"x\"`, which is not an action
    Entity::validate | Action.view Action.read / N::Action.a / / | ok
    Entity::validate | User.x Action.read / / / | ok
    Entity::validate | Action.v T.z S.z / a / / | ! action `Action::\"v\"` has the ancestor `S::\"z\"`, which is not an action
    Entity::validate | N::Action.v Action.a / T.z S.z Action.b / / | ! action `N::Action::\"v\"` has the ancestor `S::\"z\"`, which is not an action
# reserved keys in records are refused, within sets too
    Entity::validate | T.a / / / t=! | ! the key `__extn` is reserved
# the first fault is named, and a valid entity is given back
    Entity::validate | a a / / k=! / | ! entity `A::\"a\"` is its own ancestor
    Entity::validate | a b / c / k=1 / | ok
";

#[test]
fn what_calls_that_check_an_entity_answer(rt: HostRuntime) {
    assert!(rt; worked_rows(rt, &OnChecking, CHECKING));
}

const GRAPHS: &str = "
# graphs without cycles are closed: a chain, the same the other way, a longer one, one in no order
    compute_tc | dag a b, b c, c | a b c, b c, c
    compute_tc | dag c, b c, a b | c, b c, a b c
    compute_tc | dag a b, b c, c d, d e, e | a b c d e, b c d e, c d e, d e, e
    compute_tc | dag d b, e a, c e, b, a d | d b, e a b d, c a b d e, b, a b d
# two parents, paths that meet, edges that are there, parts, a key outside of the map
    compute_tc | dag a b d, b c, c, d e, e | a b c d e, b c, c, d e, e
    compute_tc | dag a b f, b c d, c, d e, e h, f g, g e, h | a b c d e f g h, b c d e h, c, d e h, e h, f e g h, g e h, h
    compute_tc | dag a b c d, b c e, c e, d c f, e, f | a b c d e f, b c e, c e, d c e f, e, f
    compute_tc | dag a f, b c, c, d e, e h, f g, g, h | a f g, b c, c, d e h, e h, f g, g, h
    compute_tc | dag a b, b c | a b c, b c
# what is closed stays
    compute_tc | dag a b c, b c, c | a b c, b c, c
# graphs with cycles are closed, and a key on a cycle is named where none may be
    compute_tc | a b, b b | a b, b b
    compute_tc | a b, b c d, c a, d | a a b c d, b a b c d, c a b c d, d
    compute_tc | a f, b c, c b, d e, e h, f g, g, h d | a f g, b b c, c b c, d d e h, e d e h, f g, g, h d e h
    compute_tc | a b, b c, c e, d a b f, e d, f e | a a b c d e f, b a b c d e f, c a b c d e f, d a b c d e f, e a b c d e f, f a b c d e f
    compute_tc | a a b, b c, c | a a b c, b c, c
    compute_tc | a b, b c, c a, d a | a a b c, b a b c, c a b c, d a b c
    compute_tc | a b, b a | a a b, b a b
    compute_tc | dag a b, b b | a b, b b ! input graph has a cycle containing vertex `A::\"b\"`
    compute_tc | dag a b, b c d, c a, d | a a b c d, b a b c d, c a b c d, d ! input graph has a cycle containing vertex _
    compute_tc | dag a f, b c, c b, d e, e h, f g, g, h d | a f g, b b c, c b c, d d e h, e d e h, f g, g, h d e h ! input graph has a cycle containing vertex _
    compute_tc | dag a b, b c, c e, d a b f, e d, f e | a a b c d e f, b a b c d e f, c a b c d e f, d a b c d e f, e a b c d e f, f a b c d e f ! input graph has a cycle containing vertex _
    compute_tc | dag a b, b a | a a b, b a b ! input graph has a cycle containing vertex _
# repair completes the nodes that it is given, and leaves the others alone
    repair_tc | dag a: a b, b c | a b c, b c
    repair_tc | a i: a b, b c, c d | a b c, b c, c d
# a cycle is named where none may be: of two keys, and of two cycles that share one
    repair_tc | dag a b: a b, b a | a a b, b a b ! input graph has a cycle containing vertex _
    repair_tc | a b: a b, b a | a a b, b a b
    repair_tc | dag a b c d e: a b, b c, c a d, d e, e c | a a b c d e, b a b c d e, c a b c d e, d a b c d e, e a b c d e ! input graph has a cycle containing vertex _
";

#[test]
fn what_closure_calls_answer(rt: HostRuntime) {
    assert!(rt; worked_rows(rt, &OnGraphs, GRAPHS));
}

const STORES: &str = "
# a removed entity leads nowhere
    Entities::remove_entities | from: a b, b c, c; remove: b | a / / / , c / / / ,
    Entities::remove_entities | from: a b d, b c, d c, c; remove: b | a d / c / / , c / / / , d c / / / ,
    Entities::remove_entities | from: a b d, b c, d c, c e; remove: b d | a / / / , c e / / / ,
    Entities::remove_entities | from: a b d, b c, d c, c e; remove: d b | a / / / , c e / / / ,
    Entities::remove_entities | from: a b d, b c, d c, c e; remove: b | a d / c e / / , c e / / / , d c / e / / ,
    Entities::add_entities | from: a b, b c, c; remove: b; add: b c | a / / / , b c / / / , c / / / ,
    Entities::remove_entities | from: a b, b; remove: a b | 
    Entities::remove_entities | from: a b, b c; remove: | a b / c / / , b c / / / ,
    Entities::remove_entities | from: a b, b, c b; remove: b b z b | a / / / , c / / / ,
# an absent parent is an ancestor that leads no indirect
    Entities::from_entities | ; from: a b | a b / / / ,
    Entities::remove_entities | from: a b; remove: b | a b / / / ,
    Entities::add_entities | from: a b; add: b c | a b / c / / , b c / / / ,
    Entities::from_entities | ; from: a b, c b, d a | a b / / / , c b / / / , d a / b / / ,
    Entities::remove_entities | from: a b; add: b c; remove: b | a / / / ,
    Entities::add_entities | from: a b; add: b c; remove: b; add: b c | a / / / , b c / / / ,
    Entities::remove_entities | from: a b, c a; remove: a; remove: b | c / / / ,
# the last of a uid is put over the store
    Entities::upsert_entities | from: a b, b c, c; upsert: c b, b | a b / / / , b / / / , c b / / / ,
    Entities::upsert_entities | from: a b; upsert: a c, a d | a d / / / ,
    Entities::upsert_entities | from: a b; upsert: b a, b | a b / / / , b / / / ,
    Entities::upsert_entities | from: a b, b, c, d; upsert: b c, b d, b, c a | a b / / / , b / / / , c a / b / / , d / / / ,
    Entities::upsert_entities | from: a b, b c, c d; upsert: b | a b / / / , b / / / , c d / / / ,
    Entities::upsert_entities | from: a / / k=1 / t=1; upsert: a / / l=2 | a / / l=2 / ,
    Entities::upsert_entities | upsert: a b; upsert: b c | a b / c / / , b c / / / ,
    Entities::upsert_entities | from: a b; upsert: b c / d | a b / c d / / , b c / d / / ,
    Entities::upsert_entities | from: a b; upsert: | a b / / / ,
# the first of a uid stays
    Entities::add_entities | from: a b, b c, c; add: a b c | a b / c / / , b c / / / , c / / / ,
    Entities::from_entities | ; from: a b, b c, a b | a b / c / / , b c / / / ,
    Entities::add_entities | from: a b c, b c; add: a b c, b c | a b c / / / , b c / / / ,
    Entities::add_entities | from: a b / c; add: a b c | a b / c / / ,
    Entities::from_entities | ; from: a b c, a b / c | a b c / / / ,
    Entities::add_entities | from: a b / / k=1 / t=2; add: a b / / k=1 / t=2 | a b / / k=1 / t=2 ,
    Entities::from_entities | from: a b; from: c d | c d / / / ,
    Entities::add_entities | from: a; add: | a / / / ,
# the first that differs is named
    Entities::add_entities | from: a b, b c, c; add: a b | ! duplicate entity `A::\"a\"`
    Entities::add_entities | from: a, b; add: b x, a x | ! duplicate entity `A::\"b\"`
    Entities::add_entities | from: a, b; add: a x, b x | ! duplicate entity `A::\"a\"`
    Entities::add_entities | from: a, b; add: a, c, c, b x, c x, a x | ! duplicate entity `A::\"b\"`
    Entities::from_entities | ; from: c, a b, b, a b b, a c, c d | ! duplicate entity `A::\"a\"`
    Entities::from_entities | ; from: a b, b c, a b c | ! duplicate entity `A::\"a\"`
    Entities::add_entities | from: a / / k=1; add: a / / k=2 | ! duplicate entity `A::\"a\"`
    Entities::add_entities | from: a / / k=1; add: a / / l=1 | ! duplicate entity `A::\"a\"`
    Entities::add_entities | from: a / / k=1; add: a | ! duplicate entity `A::\"a\"`
    Entities::add_entities | from: a / / / k=1; add: a / / / k=2 | ! duplicate entity `A::\"a\"`
    Entities::add_entities | from: a / / k=1; add: a / / / k=1 | ! duplicate entity `A::\"a\"`
    Entities::from_entities | ; from: B.a, B.a x | ! duplicate entity `B::\"a\"`
    Entities::from_entities | ; from: a, B.a x | a / / / , a x / / / ,
# a differing entity is refused before a cycle
    Entities::add_entities | from: a b; add: b a, a c | ! duplicate entity `A::\"a\"`
    Entities::from_entities | ; from: a a, a b | ! duplicate entity `A::\"a\"`
    Entities::from_entities | ; from enforce: a b, b c, a c | ! duplicate entity `A::\"a\"`
    Entities::from_entities | ; from assume: a b, a c | ! duplicate entity `A::\"a\"`
# a cycle is refused
    Entities::add_entities | from: a b; add: b a | ! input graph has a cycle containing vertex _
    Entities::from_entities | ; from: a a | ! input graph has a cycle containing vertex `A::\"a\"`
    Entities::upsert_entities | from: a b, b; upsert: b a | ! input graph has a cycle containing vertex _
    Entities::upsert_entities | from: a; upsert: a a | ! input graph has a cycle containing vertex `A::\"a\"`
    Entities::add_entities | from: c a, a b, d; add: e d, b f, f a | ! input graph has a cycle containing vertex _
    Entities::upsert_entities | from: a b, d c; upsert: b c, c b, e | ! input graph has a cycle containing vertex _
    Entities::from_entities | ; from: a / a | ! input graph has a cycle containing vertex `A::\"a\"`
    Entities::add_entities | from: a b; add: b / a | ! input graph has a cycle containing vertex _
# missing ancestors are refused where they are checked
    Entities::from_entities | ; from enforce: a b, b c | ! expected all transitive edges to exist, but `A::\"a\"` -> `A::\"b\"` and `A::\"b\"` -> `A::\"c\"` exists, while `A::\"a\"` -> `A::\"c\"` does not
    Entities::from_entities | ; from enforce: a b, b c, c | ! expected all transitive edges to exist, but `A::\"a\"` -> `A::\"b\"` and `A::\"b\"` -> `A::\"c\"` exists, while `A::\"a\"` -> `A::\"c\"` does not
    Entities::from_entities | ; from enforce: a b / c, b c | a b / c / / , b c / / / ,
    Entities::from_entities | ; from enforce: a b c, b c, c | a b c / / / , b c / / / , c / / / ,
    Entities::from_entities | ; from enforce: a b | a b / / / ,
    Entities::from_entities | ; from enforce: a / b, b / c | ! expected all transitive edges to exist, but `A::\"a\"` -> `A::\"b\"` and `A::\"b\"` -> `A::\"c\"` exists, while `A::\"a\"` -> `A::\"c\"` does not
    Entities::from_entities | ; from enforce: a b, b a | ! expected all transitive edges to exist, but `A::\"a\"` -> `A::\"b\"` and `A::\"b\"` -> `A::\"a\"` exists, while `A::\"a\"` -> `A::\"a\"` does not
    Entities::from_entities | ; from enforce: a a | ! input graph has a cycle containing vertex `A::\"a\"`
    Entities::from_entities | ; from enforce: a b / a, b a / b | ! input graph has a cycle containing vertex _
    Entities::from_entities | ; from enforce: a b, b b | ! input graph has a cycle containing vertex `A::\"b\"`
# the whole store is checked
    Entities::add_entities | from enforce: a b; add enforce: b c | ! expected all transitive edges to exist, but `A::\"a\"` -> `A::\"b\"` and `A::\"b\"` -> `A::\"c\"` exists, while `A::\"a\"` -> `A::\"c\"` does not
    Entities::add_entities | from assume: a b, b c; add enforce: d | ! expected all transitive edges to exist, but `A::\"a\"` -> `A::\"b\"` and `A::\"b\"` -> `A::\"c\"` exists, while `A::\"a\"` -> `A::\"c\"` does not
    Entities::add_entities | from assume: a a; add enforce: d | ! input graph has a cycle containing vertex `A::\"a\"`
    Entities::add_entities | from: a b, b c; add enforce: d a / b c | a b / c / / , b c / / / , d a / b c / / ,
    Entities::add_entities | from: a b, b c; add enforce: d a / b | ! expected all transitive edges to exist, but `A::\"d\"` -> _ and _ -> `A::\"c\"` exists, while `A::\"d\"` -> `A::\"c\"` does not
    Entities::add_entities | from: a b, b c; add enforce: | a b / c / / , b c / / / ,
# ancestors are taken as they are
    Entities::from_entities | ; from assume: a b, b c | a b / / / , b c / / / ,
    Entities::from_entities | ; from assume: a a | a a / / / ,
    Entities::from_entities | ; from assume: a b, b a | a b / / / , b a / / / ,
    Entities::from_entities | ; from assume: a b / a c | a b / a c / / ,
    Entities::add_entities | from assume: a b; add assume: b c | a b / / / , b c / / / ,
    Entities::add_entities | from assume: a b / c; add assume: a c / b | a b / c / / ,
    Entities::add_entities | from assume: a b, b c; add assume: a b c | ! duplicate entity `A::\"a\"`
    Entities::add_entities | from assume: a b, b c; add assume: a b | a b / / / , b c / / / ,
# what was taken as it is can be computed later
    Entities::add_entities | from assume: a b, b c; add: d a | a b / / / , b c / / / , d a / b / / ,
    Entities::add_entities | from assume: a b, b a; add: d | a b / / / , b a / / / , d / / / ,
    Entities::add_entities | from assume: a b; add: b c | a b / c / / , b c / / / ,
    Entities::from_entities | ; from: a b / c, c d | a b / c d / / , c d / / / ,
# overwriting strips and repairs as the mode says
    Entities::upsert_entities | from: a b, b c, c; upsert assume: b c | a b / / / , b c / / / , c / / / ,
    Entities::upsert_entities | from: a b, b c, c; upsert enforce: b c | ! expected all transitive edges to exist, but `A::\"a\"` -> `A::\"b\"` and `A::\"b\"` -> `A::\"c\"` exists, while `A::\"a\"` -> `A::\"c\"` does not
    Entities::upsert_entities | from: a b, b c, c; upsert: b c | a b / c / / , b c / / / , c / / / ,
    Entities::upsert_entities | from: a b, b c, c d, d; upsert: c, b d | a b / d / / , b d / / / , c / / / , d / / / ,
    Entities::upsert_entities | from: a b, b c, c d, d; upsert: b d, c | a b / d / / , b d / / / , c / / / , d / / / ,
    Entities::upsert_entities | from: a b e, b c, c, e f, f; upsert assume: b | a b e / f / / , b / / / , c / / / , e f / / / , f / / / ,
    Entities::upsert_entities | from: a b, b c, c d, d; upsert assume: c, b d | a b / / / , b d / / / , c / / / , d / / / ,
    Entities::upsert_entities | from: a b, b c, c d, d; upsert assume: b d, c | a b / / / , b d / / / , c / / / , d / / / ,
    Entities::upsert_entities | from: a b, b c; upsert: c d | a b / c d / / , b c / d / / , c d / / / ,
    Entities::upsert_entities | from: a b, b c; upsert assume: c d | a b / c / / , b c / / / , c d / / / ,
    Entities::upsert_entities | from: a b, b c; upsert: c a | ! input graph has a cycle containing vertex _
    Entities::upsert_entities | from assume: b c, c; upsert assume: a b / c, b c | a b / c / / , b c / / / , c / / / ,
    Entities::upsert_entities | from: a b, b c, c; upsert: b c, b, c a | a b / / / , b / / / , c a / b / / ,
# removal repairs in each mode
    Entities::remove_entities | from: a b c, b d, c d, d; remove assume: b | a c / d / / , c d / / / , d / / / ,
    Entities::remove_entities | from: a b c, b d, c d, d; remove enforce: b | a c / d / / , c d / / / , d / / / ,
    Entities::remove_entities | from: a b c, b d, c d, d; remove: b | a c / d / / , c d / / / , d / / / ,
    Entities::remove_entities | from: a b, b c, c d, d; remove: b c | a / / / , d / / / ,
    Entities::remove_entities | from: a b, b c, c d, d; remove assume: c b | a / / / , d / / / ,
    Entities::remove_entities | from: a b, b c, c, d; remove: b b z b | a / / / , c / / / , d / / / ,
    Entities::remove_entities | from assume: a b, b c, d; remove enforce: d | ! expected all transitive edges to exist, but `A::\"a\"` -> `A::\"b\"` and `A::\"b\"` -> `A::\"c\"` exists, while `A::\"a\"` -> `A::\"c\"` does not
    Entities::remove_entities | from assume: a b, b c, d; remove assume: d | a b / / / , b c / / / ,
# what is not touched stays
    Entities::upsert_entities | from assume: x y, y z, d; upsert: d e | d e / / / , x y / / / , y z / / / ,
    Entities::add_entities | from assume: x y, y z, d; upsert: d e; add: f | d e / / / , f / / / , x y / / / , y z / / / ,
    Entities::remove_entities | from assume: x y, y z, d; add: f; remove: f | d / / / , x y / / / , y z / / / ,
    Entities::add_entities | from assume: x y, y z, d; add: x y | d / / / , x y / / / , y z / / / ,
    Entities::add_entities | from assume: x y, y z, d; upsert: d e; add: f; remove: f; add: x y; add: w | d e / / / , w / / / , x y / / / , y z / / / ,
    Entities::remove_entities | from assume: x y / q, y z, d; upsert assume: d; remove assume: d | x y / q / / , y z / / / ,
# an absent uid that is added is followed
    Entities::add_entities | from: a x, b a x; add: x y | a x / y / / , b a x / y / / , x y / / / ,
    Entities::remove_entities | from: a x, b a x; add: x y; remove: x | a / / / , b a / / / ,
    Entities::add_entities | from: a x, b a x; add: x y; remove: x; add: x | a / / / , b a / / / , x / / / ,
    Entities::add_entities | from: a b, b x; add: x y | a b / x y / / , b x / y / / , x y / / / ,
# chains and branches of many shapes, given in any order, checked once they are closed, and taken as they are
    Entities::from_entities | ; from: k l, l m, m | k l / m / / , l m / / / , m / / / ,
    Entities::from_entities | ; from enforce: k l / m, l m, m | k l / m / / , l m / / / , m / / / ,
    Entities::from_entities | ; from assume: k l, l m, m | k l / / / , l m / / / , m / / / ,
    Entities::from_entities | ; from: m, l m, k l | k l / m / / , l m / / / , m / / / ,
    Entities::from_entities | ; from enforce: k l / m, l m, m | k l / m / / , l m / / / , m / / / ,
    Entities::from_entities | ; from assume: m, l m, k l | k l / / / , l m / / / , m / / / ,
    Entities::from_entities | ; from: k l, l m, m n, n o, o | k l / m n o / / , l m / n o / / , m n / o / / , n o / / / , o / / / ,
    Entities::from_entities | ; from enforce: k l / m n o, l m / n o, m n / o, n o, o | k l / m n o / / , l m / n o / / , m n / o / / , n o / / / , o / / / ,
    Entities::from_entities | ; from assume: k l, l m, m n, n o, o | k l / / / , l m / / / , m n / / / , n o / / / , o / / / ,
    Entities::from_entities | ; from: pear fig, fig plum, plum date, date kiwi, kiwi | date kiwi / / / , fig plum / date kiwi / / , kiwi / / / , pear fig / date kiwi plum / / , plum date / kiwi / / ,
    Entities::from_entities | ; from enforce: date kiwi, fig plum / date kiwi, kiwi, pear fig / date kiwi plum, plum date / kiwi | date kiwi / / / , fig plum / date kiwi / / , kiwi / / / , pear fig / date kiwi plum / / , plum date / kiwi / / ,
    Entities::from_entities | ; from assume: pear fig, fig plum, plum date, date kiwi, kiwi | date kiwi / / / , fig plum / / / , kiwi / / / , pear fig / / / , plum date / / / ,
    Entities::from_entities | ; from: k l n, l m, m, n o, o | k l n / m o / / , l m / / / , m / / / , n o / / / , o / / / ,
    Entities::from_entities | ; from enforce: k l n / m o, l m, m, n o, o | k l n / m o / / , l m / / / , m / / / , n o / / / , o / / / ,
    Entities::from_entities | ; from assume: k l n, l m, m, n o, o | k l n / / / , l m / / / , m / / / , n o / / / , o / / / ,
    Entities::from_entities | ; from: k l p, l m n, m, n o, o r, p q, q o, r | k l p / m n o q r / / , l m n / o r / / , m / / / , n o / r / / , o r / / / , p q / o r / / , q o / r / / , r / / / ,
    Entities::from_entities | ; from enforce: k l p / m n o q r, l m n / o r, m, n o / r, o r, p q / o r, q o / r, r | k l p / m n o q r / / , l m n / o r / / , m / / / , n o / r / / , o r / / / , p q / o r / / , q o / r / / , r / / / ,
    Entities::from_entities | ; from assume: k l p, l m n, m, n o, o r, p q, q o, r | k l p / / / , l m n / / / , m / / / , n o / / / , o r / / / , p q / / / , q o / / / , r / / / ,
    Entities::from_entities | ; from: k l m n, l m o, m o, n m p, o, p | k l m n / o p / / , l m o / / / , m o / / / , n m p / o / / , o / / / , p / / / ,
    Entities::from_entities | ; from enforce: k l m n / o p, l m o, m o, n m p / o, o, p | k l m n / o p / / , l m o / / / , m o / / / , n m p / o / / , o / / / , p / / / ,
    Entities::from_entities | ; from assume: k l m n, l m o, m o, n m p, o, p | k l m n / / / , l m o / / / , m o / / / , n m p / / / , o / / / , p / / / ,
    Entities::from_entities | ; from: k p, l m, m, n o, o r, p q, q, r | k p / q / / , l m / / / , m / / / , n o / r / / , o r / / / , p q / / / , q / / / , r / / / ,
    Entities::from_entities | ; from enforce: k p / q, l m, m, n o / r, o r, p q, q, r | k p / q / / , l m / / / , m / / / , n o / r / / , o r / / / , p q / / / , q / / / , r / / / ,
    Entities::from_entities | ; from assume: k p, l m, m, n o, o r, p q, q, r | k p / / / , l m / / / , m / / / , n o / / / , o r / / / , p q / / / , q / / / , r / / / ,
# cycles wherever they lie
    Entities::from_entities | ; from: k l, l l | ! input graph has a cycle containing vertex `A::\"l\"`
    Entities::from_entities | ; from assume: k l, l l | k l / / / , l l / / / ,
    Entities::from_entities | ; from: k k l, l m, m | ! input graph has a cycle containing vertex `A::\"k\"`
    Entities::from_entities | ; from assume: k k l, l m, m | k k l / / / , l m / / / , m / / / ,
    Entities::from_entities | ; from: k l, l m n, m k, n | ! input graph has a cycle containing vertex _
    Entities::from_entities | ; from assume: k l, l m n, m k, n | k l / / / , l m n / / / , m k / / / , n / / / ,
    Entities::from_entities | ; from: k p, l m, m l, n o, o r, p q, q, r n | ! input graph has a cycle containing vertex _
    Entities::from_entities | ; from assume: k p, l m, m l, n o, o r, p q, q, r n | k p / / / , l m / / / , m l / / / , n o / / / , o r / / / , p q / / / , q / / / , r n / / / ,
    Entities::from_entities | ; from: k l, l m, m o, n k l p, o n, p o | ! input graph has a cycle containing vertex _
    Entities::from_entities | ; from assume: k l, l m, m o, n k l p, o n, p o | k l / / / , l m / / / , m o / / / , n k l p / / / , o n / / / , p o / / / ,
    Entities::from_entities | ; from enforce: k l, l l | ! input graph has a cycle containing vertex `A::\"l\"`
    Entities::from_entities | ; from enforce: k k l / m, l m, m | ! input graph has a cycle containing vertex `A::\"k\"`
    Entities::from_entities | ; from enforce: k l / k m n, l m n / k l, m k / l m n, n | ! input graph has a cycle containing vertex _
    Entities::upsert_entities | from: k l, l m, m; upsert: k l, l n, n | k l / n / / , l n / / / , m / / / , n / / / ,
# a valid store is given back
    Entities::try_validate | ; validate | 
    Entities::try_validate | from: a b, b c; validate | a b / c / / , b c / / / ,
    Entities::try_validate | from assume: a b / c, b c; validate | a b / c / / , b c / / / ,
    Entities::try_validate | from: Action.v N.z / , N.z; remove: N.z; validate | v / / / ,
    Entities::try_validate | partial; add: a b / / k=1 / t=2; validate | a b / / k=1 / t=2 ,
# the closure is looked at first
    Entities::try_validate | from assume: a b, b c; validate | ! expected all transitive edges to exist, but `A::\"a\"` -> `A::\"b\"` and `A::\"b\"` -> `A::\"c\"` exists, while `A::\"a\"` -> `A::\"c\"` does not
    Entities::try_validate | from assume: a a; validate | ! input graph has a cycle containing vertex `A::\"a\"`
    Entities::try_validate | from assume: a / a; validate | ! input graph has a cycle containing vertex `A::\"a\"`
    Entities::try_validate | from assume: a b / b, c d, d e; validate | ! expected all transitive edges to exist, but `A::\"c\"` -> `A::\"d\"` and `A::\"d\"` -> `A::\"e\"` exists, while `A::\"c\"` -> `A::\"e\"` does not
    Entities::try_validate | from assume: Action.v T.z, c c; validate | ! input graph has a cycle containing vertex `A::\"c\"`
# the fault of the least uid is told
    Entities::try_validate | from assume: b x / x, a x / x, c; validate | ! entity `A::\"a\"` has `A::\"x\"` as parent and as indirect ancestor
    Entities::try_validate | from assume: a, d, c x / x, b x; validate | ! entity `A::\"c\"` has `A::\"x\"` as parent and as indirect ancestor
    Entities::try_validate | from assume: Action.v T.z, b x / x; validate | ! entity `A::\"b\"` has `A::\"x\"` as parent and as indirect ancestor
    Entities::try_validate | from assume: B.b A.x / A.x, Action.v T.z; validate | ! action `Action::\"v\"` has the ancestor `T::\"z\"`, which is not an action
    Entities::try_validate | from: Action.v T.z, a b; validate | ! action `Action::\"v\"` has the ancestor `T::\"z\"`, which is not an action
# edits that are tried: what is tried above answers as the edit does
    Entities::add_entities | from: a b, b c; add: x a | a b / c / / , b c / / / , x a / b c / / ,
    Entities::add_entities | from: a b, b c; add: a b c | a b / c / / , b c / / / ,
    Entities::add_entities | from: a b, b c; add:  | a b / c / / , b c / / / ,
    Entities::add_entities | ; add: a b, b c | a b / c / / , b c / / / ,
    Entities::add_entities | from: a b; partial; add: c a | a b / / / , c a / b / / ,
    Entities::upsert_entities | from: a b, b c, c; upsert: c a, b | a b / / / , b / / / , c a / b / / ,
    Entities::upsert_entities | from: a b, b c, c; upsert: c a, c | a b / c / / , b c / / / , c / / / ,
    Entities::upsert_entities | from: a b; upsert: a x / / k=1 | a x / / k=1 / ,
    Entities::add_entities | from: a b, b c; add: a b | ! duplicate entity `A::\"a\"`
    Entities::add_entities | from: a b, b c; add: x, a d | ! duplicate entity `A::\"a\"`
    Entities::add_entities | from: a b / / k=1; add: a b / / k=2 | ! duplicate entity `A::\"a\"`
    Entities::add_entities | from: a b; add: x y, x z | ! duplicate entity `A::\"x\"`
    Entities::add_entities | from: a b, c d; add: b a, c e, a z | ! duplicate entity `A::\"c\"`
    Entities::add_entities | ; add: a a | ! input graph has a cycle containing vertex _
    Entities::add_entities | from: a b; add: b a | ! input graph has a cycle containing vertex _
    Entities::add_entities | from: a b, b c, c d, x y; add: d a | ! input graph has a cycle containing vertex _
    Entities::add_entities | from: a b, b c; add: c x, x a | ! input graph has a cycle containing vertex _
    Entities::add_entities | from: a b; partial; add: b a | ! input graph has a cycle containing vertex _
    Entities::upsert_entities | from: a b, b c, c; upsert: c a | ! input graph has a cycle containing vertex _
    Entities::upsert_entities | from: a b, b c, c; upsert: c x, x y, y b | ! input graph has a cycle containing vertex _
";

#[test]
fn what_calls_that_take_a_store_answer(rt: HostRuntime) {
    assert!(rt; worked_rows(rt, &OnStores, STORES));
}

const READING: &str = "
# a slice has what is asked for and what is stored above it
    slice | from: a b, b c, c d, d, e; a a | a b / c d / / , b c / d / / , c d / / / , d / / / ,
    slice | from: a b, b c, c d, d, e; d d | d / / / ,
    slice | from: a b, b c, c d, d, e;  | 
    slice | from: a b, b c, d b; a z a z | a b / c / / , b c / / / ,
    slice | from: a b, b c; z z | 
    slice | from: ; a a | 
    slice | from: a b, b c, c, d; b a b a | a b / c / / , b c / / / , c / / / ,
    slice | from: a c, b c, c d, e; a b a b | a c / d / / , b c / d / / , c d / / / ,
    slice | from: a b; b b | 
    slice | from assume: a b, b c, c; a a | a b / / / , b c / / / ,
    slice | from assume: a / b, b c, c, d; a a | a / b / / , b c / / / ,
    slice | from assume: a b, b a, c; a a | a b / / / , b a / / / ,
    slice | from assume: a a / a, c; a a | a a / a / / ,
    slice | from: a b, b c; partial; a z a z | a b / c / / , b c / / / ,
    slice | from: a b, b c; partial; z z | 
# nothing refuses the edit
    would_add | from: a b, b c; x a | done
    would_add | from: a b, b c; a b c | done
    would_add | from: a b, b c;  | done
    would_add | ; a b, b c | done
    would_add | from: a b; partial; c a | done
    would_upsert | from: a b, b c, c; c a, b | done
    would_upsert | from: a b, b c, c; c a, c | done
    would_upsert | from: a b; a x / / k=1 | done
# what differs: the first of the list, before any cycle
    would_add | from: a b, b c; a b | ! duplicate entity `A::\"a\"`
    would_add | from: a b, b c; x, a d | ! duplicate entity `A::\"a\"`
    would_add | from: a b / / k=1; a b / / k=2 | ! duplicate entity `A::\"a\"`
    would_add | from: a b; x y, x z | ! duplicate entity `A::\"x\"`
    would_add | from: a b, c d; b a, c e, a z | ! duplicate entity `A::\"c\"`
# a cycle through what is listed, what stands above it, or both
    would_add | ; a a | ! input graph has a cycle containing vertex _
    would_add | from: a b; b a | ! input graph has a cycle containing vertex _
    would_add | from: a b, b c, c d, x y; d a | ! input graph has a cycle containing vertex _
    would_add | from: a b, b c; c x, x a | ! input graph has a cycle containing vertex _
    would_add | from: a b; partial; b a | ! input graph has a cycle containing vertex _
    would_upsert | from: a b, b c, c; c a | ! input graph has a cycle containing vertex _
    would_upsert | from: a b, b c, c; c x, x y, y b | ! input graph has a cycle containing vertex _
# a look-up finds what is there
    Entities::entity | ; z | none
    Entities::entity | partial; z | unknown(\"A::\\\"z\\\"\")
    Entities::entity | from: a b, b c; a | data
    Entities::entity | from: a b, b c; c | none
    Entities::entity | from: a b; partial; a | data
    Entities::entity | from: a b; partial; b | unknown(\"A::\\\"b\\\"\")
    Entities::entity | from: a b; partial; remove: a; a | unknown(\"A::\\\"a\\\"\")
    Entities::entity | partial; from: a b; b | none
    Entities::entity | from: a; B.a | none
    Entities::entity | partial; T.é | unknown(\"T::\\\"é\\\"\")
";

#[test]
fn what_calls_that_read_a_store_answer(rt: HostRuntime) {
    assert!(rt; worked_rows(rt, &OnReading, READING));
}
