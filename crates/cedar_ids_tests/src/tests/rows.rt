// Tests of parsing, printing and order. Each case has a word, the input texts and the expected text.
use super::is_equal;
use cedar_ids::entity::{ACTION_ENTITY_TYPE, Eid, EntityType, EntityUID};
use cedar_ids::err::ParseErrors;
use cedar_ids::id::{AnyId, Id};
use cedar_ids::name::Name;
use cedar_ids::policy_id::PolicyID;
use cedar_test_helpers::creation::both;
use cedar_test_helpers::results::{owned, written};
use cedar_test_helpers::rows::{all_hold, meant};
use std::alloc::{AllocError, Global};
use std::cmp::Ordering;
use std::fmt::Display;
use std::test::Fail;

// Writes a value or an error.
fn told<T: Display + Drop>(alloc: Global, made: Result<T, ParseErrors>) -> Result<String, Fail> {
    match made {
        Ok(x) => written(alloc, x),
        Err(error) => written(alloc, error),
    }
}

// Writes a value if `right` is true, else a failure text.
fn shown<T: Display>(alloc: Global, x: &T, right: bool) -> Result<String, Fail> {
    if right {
        return Ok(x.to_string(alloc)?);
    }
    owned(alloc, "another text, or another copy")
}

// Parses an identifier and writes it, if it has the right text and equals its copy. Writes the error otherwise.
fn id(alloc: Global, text: &str) -> Result<String, Fail> {
    match Id::from_normalized_str(alloc, text) {
        Ok(id) => {
            let right = id.as_ref() == text && is_equal(id.clone(), &id);
            let told = shown(alloc, &id, right);
            drop(id);
            told
        }
        Err(error) => written(alloc, error),
    }
}

// Returns the answer of a line about an identifier that may be reserved.
fn any_id(alloc: Global, text: &str) -> Result<String, Fail> {
    match AnyId::from_normalized_str(alloc, text) {
        Ok(id) => {
            let right = id.as_ref() == text && is_equal(id.clone(), &id);
            let told = shown(alloc, &id, right);
            drop(id);
            told
        }
        Err(error) => written(alloc, error),
    }
}

// Writes a name and the type with this name, each inside an optional namespace.
fn qualified(name: Name, alloc: Global, namespace: Option<&Name>) -> Result<String, AllocError> {
    let ty: EntityType = name.into();
    let named = ty.name().qualify_with_name(alloc, namespace);
    let typed = ty.qualify_with(alloc, namespace);
    drop(ty);
    match both(named.ok(), typed.ok()) {
        Some((name, ty)) => {
            let told = format!(in alloc; "{name} {ty}");
            drop(name);
            drop(ty);
            told
        }
        None => String::from_str(alloc, "refused"),
    }
}

// Writes the name and the type with this text, inside a namespace.
fn within(alloc: Global, namespace: &str, text: &str) -> Result<String, Fail> {
    let namespace = Name::from_normalized_str(alloc, namespace)?;
    let told = match Name::from_normalized_str(alloc, text) {
        Ok(name) => Ok(qualified(name, alloc, Some(&namespace))?),
        Err(error) => Err(error.into()),
    };
    drop(namespace);
    told
}

// Writes the name and the type with this text, without a namespace.
fn alone(alloc: Global, text: &str) -> Result<String, Fail> {
    let name = Name::from_normalized_str(alloc, text)?;
    Ok(qualified(name, alloc, None)?)
}

fn basename(alloc: Global, text: &str) -> Result<String, Fail> {
    match Name::from_normalized_str(alloc, text) {
        Ok(name) => {
            let told = name.basename().to_string(alloc);
            drop(name);
            Ok(told?)
        }
        Err(error) => written(alloc, error),
    }
}

// Returns whether a policy id has this text, and equals an id made from an owned text and its own copy.
fn is_policy(id: &PolicyID, text: &str, other: PolicyID) -> bool {
    let told = id.as_ref() == text && other == *id && is_equal(id.clone(), id);
    drop(other);
    told
}

// Writes the policy id with this text, if all its accessors return the text.
fn policy(alloc: Global, text: &str) -> Result<String, Fail> {
    let id = PolicyID::from_string(alloc, text)?;
    match String::from_str(alloc, text) {
        Ok(own) => {
            let told = is_policy(&id, text, PolicyID::from_smolstr(own));
            let shown = id.to_string(alloc);
            let own = id.into_smolstr();
            let told = told && own.as_str() == text;
            drop(own);
            let shown = shown?;
            if told {
                Ok(shown)
            } else {
                owned(alloc, "another text")
            }
        }
        Err(error) => {
            drop(id);
            Err(error.into())
        }
    }
}

fn eid(alloc: Global, text: &str) -> Result<Eid, ParseErrors> {
    Ok(Eid::new(String::from_str(alloc, text)?))
}

fn escaped(alloc: Global, text: &str) -> Result<String, Fail> {
    let eid = eid(alloc, text)?;
    let right = is_equal(eid.clone(), &eid);
    let told = eid.escaped(alloc);
    drop(eid);
    if right {
        Ok(told?)
    } else {
        owned(alloc, "another copy")
    }
}

// Creates the uid with this type and eid.
fn made(alloc: Global, ty: &str, text: &str) -> Result<EntityUID, ParseErrors> {
    let eid = eid(alloc, text)?;
    match EntityType::from_normalized_str(alloc, ty) {
        Ok(ty) => Ok(EntityUID::from_components(ty, eid, None)),
        Err(error) => {
            drop(eid);
            Err(error)
        }
    }
}

// Writes the text, type and eid of a uid, and whether the uid and its type are an action's. Writes the error otherwise.
fn parts(alloc: Global, made: Result<EntityUID, ParseErrors>) -> Result<String, Fail> {
    match made {
        Ok(uid) => {
            let (ty, eid) = (uid.entity_type(), uid.eid().as_ref());
            let acts = match (uid.is_action(), ty.is_action()) {
                (true, true) => " acts",
                (false, false) => "",
                _ => " acts by half",
            };
            let told = format!(in alloc; "{uid} {ty} {eid}{acts}");
            drop(uid);
            Ok(told?)
        }
        Err(error) => written(alloc, error),
    }
}

// Writes the type and the eid that a uid is split into.
fn apart(alloc: Global, text: &str) -> Result<String, Fail> {
    let (ty, eid) = EntityUID::from_normalized_str(alloc, text)?.components();
    let told = format!(in alloc; "{ty} {}", eid.as_ref());
    drop(ty);
    let own = eid.into_smolstr();
    let told = told?;
    let same = told.as_str().ends_with(own.as_str());
    drop(own);
    if same {
        Ok(told)
    } else {
        owned(alloc, "another eid")
    }
}

fn refusal(alloc: Global, word: &str) -> Result<String, Fail> {
    let error = match word {
        "not normalized" => ParseErrors::NotNormalized,
        "no name" => ParseErrors::InvalidName,
        _ => ParseErrors::Memory,
    };
    written(alloc, error)
}

// Runs one case: a word and its input texts.
fn answer(alloc: Global, word: &str, text: &str) -> Result<String, Fail> {
    let (one, other) = text.split_once('|').unwrap_or((text, ""));
    match word {
        "id" => id(alloc, text),
        "any" => any_id(alloc, text),
        "action" => told(alloc, Id::from_normalized_str(alloc, ACTION_ENTITY_TYPE)),
        "name" => told(alloc, Name::from_normalized_str(alloc, text)),
        "type" => told(alloc, EntityType::from_normalized_str(alloc, text)),
        "unqualified" => told(alloc, Name::parse_unqualified_name(alloc, text)),
        "basename" => basename(alloc, text),
        "within" => within(alloc, one, other),
        "alone" => alone(alloc, text),
        "policy" => policy(alloc, text),
        "escaped" => escaped(alloc, text),
        "uid" => parts(alloc, EntityUID::from_normalized_str(alloc, text)),
        "made" => told(alloc, made(alloc, one, other)),
        "typename" => parts(alloc, EntityUID::with_eid_and_type(alloc, one, other)),
        "apart" => apart(alloc, text),
        "refusal" => refusal(alloc, text),
        "ascend" => ascend(alloc, one, other),
        _ => owned(alloc, "what is this word?"),
    }
}

// Runs one case, given as one text.
fn row(alloc: Global, asked: &str) -> Result<String, Fail> {
    let asked = meant(alloc, asked)?;
    let (word, text) = asked.split_once('|').unwrap_or((asked.as_str(), ""));
    let told = answer(alloc, word, text);
    drop(asked);
    told
}

// Returns the order of two values, if all comparison operators agree.
fn order<T: Ord + Drop, E: Drop>(x: Result<T, E>, y: Result<T, E>) -> Option<Ordering> {
    match both(x.ok(), y.ok()) {
        Some((x, y)) => {
            let order = x.cmp(&y);
            let told = (x == y) == order.is_eq() && (x < y) == order.is_lt();
            drop(x);
            drop(y);
            if told { Some(order) } else { None }
        }
        None => None,
    }
}

// Returns the order of the values that two texts are parsed to.
fn stand(alloc: Global, word: &str, x: &str, y: &str) -> Option<Ordering> {
    match word {
        "id" => order(
            Id::from_normalized_str(alloc, x),
            Id::from_normalized_str(alloc, y),
        ),
        "any" => order(
            AnyId::from_normalized_str(alloc, x),
            AnyId::from_normalized_str(alloc, y),
        ),
        "name" => order(
            Name::from_normalized_str(alloc, x),
            Name::from_normalized_str(alloc, y),
        ),
        "type" => order(
            EntityType::from_normalized_str(alloc, x),
            EntityType::from_normalized_str(alloc, y),
        ),
        "uid" => order(
            EntityUID::from_normalized_str(alloc, x),
            EntityUID::from_normalized_str(alloc, y),
        ),
        "eid" => order(eid(alloc, x), eid(alloc, y)),
        "policy" => order(
            PolicyID::from_string(alloc, x),
            PolicyID::from_string(alloc, y),
        ),
        _ => None,
    }
}

// Checks that the values of some texts, separated by commas, are in ascending order.
fn ascend(alloc: Global, word: &str, texts: &str) -> Result<String, Fail> {
    for (i, x) in texts.split(',').enumerate() {
        for (j, y) in texts.split(',').enumerate() {
            if stand(alloc, word, x, y) != Some(i.cmp(&j)) {
                return Ok(format!(in alloc; "{x} and {y} do not")?);
            }
        }
    }
    owned(alloc, "yes")
}

const ROWS: &str = "# an identifier is read, and is any identifier\n\
id|a => a\n\
any|a => a\n\
id|Z => Z\n\
any|Z => Z\n\
id|_ => _\n\
any|_ => _\n\
id|a1 => a1\n\
any|a1 => a1\n\
id|__ => __\n\
any|__ => __\n\
id|A_b_9 => A_b_9\n\
any|A_b_9 => A_b_9\n\
id|iff => iff\n\
any|iff => iff\n\
id|i => i\n\
any|i => i\n\
id|True => True\n\
any|True => True\n\
id|has_ => has_\n\
any|has_ => has_\n\
id|__cedar1 => __cedar1\n\
any|__cedar1 => __cedar1\n\
# a reserved word is any identifier, and no other one\n\
id|true => not a valid name\n\
any|true => true\n\
id|false => not a valid name\n\
any|false => false\n\
id|if => not a valid name\n\
any|if => if\n\
id|then => not a valid name\n\
any|then => then\n\
id|else => not a valid name\n\
any|else => else\n\
id|in => not a valid name\n\
any|in => in\n\
id|is => not a valid name\n\
any|is => is\n\
id|like => not a valid name\n\
any|like => like\n\
id|has => not a valid name\n\
any|has => has\n\
id|__cedar => not a valid name\n\
any|__cedar => __cedar\n\
# what is no identifier is refused\n\
id| => not a valid name\n\
any| => not a valid name\n\
id|1 => not a valid name\n\
any|1 => not a valid name\n\
id|9a => not a valid name\n\
any|9a => not a valid name\n\
id|a b => not a valid name\n\
any|a b => not a valid name\n\
id| a => not a valid name\n\
any| a => not a valid name\n\
id|a  => not a valid name\n\
any|a  => not a valid name\n\
id|a-b => not a valid name\n\
any|a-b => not a valid name\n\
id|a.b => not a valid name\n\
any|a.b => not a valid name\n\
id|a::b => not a valid name\n\
any|a::b => not a valid name\n\
id|a: => not a valid name\n\
any|a: => not a valid name\n\
id|é => not a valid name\n\
any|é => not a valid name\n\
id|aé => not a valid name\n\
any|aé => not a valid name\n\
id|@ => not a valid name\n\
any|@ => not a valid name\n\
id|[ => not a valid name\n\
any|[ => not a valid name\n\
id|` => not a valid name\n\
any|` => not a valid name\n\
id|{ => not a valid name\n\
any|{ => not a valid name\n\
id|a/ => not a valid name\n\
any|a/ => not a valid name\n\
id|a:b => not a valid name\n\
any|a:b => not a valid name\n\
id|a¶ => not a valid name\n\
any|a¶ => not a valid name\n\
id|\"a\" => not a valid name\n\
any|\"a\" => not a valid name\n\
# identifiers are compared by their bytes\n\
ascend|id|A,AA,B,_,a,ab,b => yes\n\
ascend|any|A,AA,B,_,a,ab,b => yes\n\
# a name is read and written, as a type and as a name again\n\
name|A => A\n\
type|A => A\n\
basename|A => A\n\
name|A::B => A::B\n\
type|A::B => A::B\n\
basename|A::B => B\n\
name|test_entity_type => test_entity_type\n\
type|test_entity_type => test_entity_type\n\
basename|test_entity_type => test_entity_type\n\
name|some_entity_type => some_entity_type\n\
type|some_entity_type => some_entity_type\n\
basename|some_entity_type => some_entity_type\n\
name|_ => _\n\
type|_ => _\n\
basename|_ => _\n\
name|_a::__::z9 => _a::__::z9\n\
type|_a::__::z9 => _a::__::z9\n\
basename|_a::__::z9 => z9\n\
name|If::In::TRUE => If::In::TRUE\n\
type|If::In::TRUE => If::In::TRUE\n\
basename|If::In::TRUE => TRUE\n\
name|__cedar2 => __cedar2\n\
type|__cedar2 => __cedar2\n\
basename|__cedar2 => __cedar2\n\
name|a::b::c::d => a::b::c::d\n\
type|a::b::c::d => a::b::c::d\n\
basename|a::b::c::d => d\n\
# what is no name is refused\n\
name| => not a valid name\n\
type| => not a valid name\n\
name|:: => not a valid name\n\
type|:: => not a valid name\n\
name|A:: => not a valid name\n\
type|A:: => not a valid name\n\
name|::A => not a valid name\n\
type|::A => not a valid name\n\
name|A:B => not a valid name\n\
type|A:B => not a valid name\n\
name|A:::B => not a valid name\n\
type|A:::B => not a valid name\n\
name|A::::B => not a valid name\n\
type|A::::B => not a valid name\n\
name|A::B:: => not a valid name\n\
type|A::B:: => not a valid name\n\
name|1A => not a valid name\n\
type|1A => not a valid name\n\
name|A::1 => not a valid name\n\
type|A::1 => not a valid name\n\
name|A b => not a valid name\n\
type|A b => not a valid name\n\
name| A => not a valid name\n\
type| A => not a valid name\n\
name|A  => not a valid name\n\
type|A  => not a valid name\n\
name|A ::B => not a valid name\n\
type|A ::B => not a valid name\n\
name|A:: B => not a valid name\n\
type|A:: B => not a valid name\n\
name|A¶ => not a valid name\n\
type|A¶ => not a valid name\n\
name|if => not a valid name\n\
type|if => not a valid name\n\
name|A::if => not a valid name\n\
type|A::if => not a valid name\n\
name|true::A => not a valid name\n\
type|true::A => not a valid name\n\
name|A::__cedar::B => not a valid name\n\
type|A::__cedar::B => not a valid name\n\
name|__cedar => not a valid name\n\
type|__cedar => not a valid name\n\
name|é => not a valid name\n\
type|é => not a valid name\n\
name|A-B => not a valid name\n\
type|A-B => not a valid name\n\
name|A.B => not a valid name\n\
type|A.B => not a valid name\n\
name|A::\"b\" => not a valid name\n\
type|A::\"b\" => not a valid name\n\
name|@A => not a valid name\n\
type|@A => not a valid name\n\
name|[ => not a valid name\n\
type|[ => not a valid name\n\
name|` => not a valid name\n\
type|` => not a valid name\n\
name|{ => not a valid name\n\
type|{ => not a valid name\n\
# an unqualified name is one identifier\n\
unqualified|Unspecified => Unspecified\n\
unqualified|A::B => not a valid name\n\
unqualified| => not a valid name\n\
unqualified|:: => not a valid name\n\
unqualified|A:: => not a valid name\n\
unqualified|if => not a valid name\n\
unqualified|__cedar => not a valid name\n\
unqualified| A => not a valid name\n\
unqualified|A  => not a valid name\n\
# a name without a path goes into the namespace, as a name and as a type\n\
within|N|A => N::A N::A\n\
within|N::M|A => N::M::A N::M::A\n\
within|L::N::M|A => L::N::M::A L::N::M::A\n\
within|A|A => A::A A::A\n\
within|N|B::A => B::A B::A\n\
within|N::M|C::B::A => C::B::A C::B::A\n\
# a name stays where there is no namespace\n\
alone|A => A A\n\
alone|B::A => B::A B::A\n\
# names and types are ordered by the last component, then by the path\n\
ascend|name|Z::A,B,A::B,A::A::B,A::C::B,B::B,A::C,_,a => yes\n\
ascend|type|Z::A,B,A::B,A::A::B,A::C::B,B::B,A::C,_,a => yes\n\
# a policy id is any text, and is written escaped with no quotes\n\
policy|policy0 => policy0\n\
policy| => \n\
policy|it's => it\\'s\n\
policy|é => é\n\
policy|a b¶ => a b\\n\n\
policy|it's \"x\"¶ => it\\'s \\\"x\\\"\\n\n\
policy|a\\b\t\r\0\u{1f}\u{7f} => a\\\\b\\t\\r\\0\\u{1f}\\u{7f}\n\
policy|é' => é\\'\n\
ascend|policy|,a,aa,b,policy0,policy1,policy10,policy2,é => yes\n\
# a uid is written as its name and its escaped eid\n\
made|test_entity_type|eid => test_entity_type::\"eid\"\n\
made|A|it's\t => A::\"it\\'s\\t\"\n\
made|A| => A::\"\"\n\
made|A::B|\u{1}\u{7f}\0 => A::B::\"\\u{1}\\u{7f}\\0\"\n\
made|A::B::C|\r¶\"\\ => A::B::C::\"\\r\\n\\\"\\\\\"\n\
made|_a1| !#$%&()*+,-./:;<=>?@[]^`{|}~ => _a1::\" !#$%&()*+,-./:;<=>?@[]^`{|}~\"\n\
made|A|\u{1f}\u{b} => A::\"\\u{1f}\\u{b}\"\n\
made|A|A::B::\"quoted\" => A::\"A::B::\\\"quoted\\\"\"\n\
# past ASCII it is written as `escape_debug` does\n\
made|A|é => A::\"é\"\n\
made|A|it's é => A::\"it\\'s é\"\n\
made|A|\u{80} => A::\"\\u{80}\"\n\
made|A|é\u{200b} => A::\"é\\u{200b}\"\n\
made|A|日本 => A::\"日本\"\n\
# a written uid is read: its text, its type, its eid\n\
uid|A::\"alice\" => A::\"alice\" A alice\n\
uid|A::B::\"alice\" => A::B::\"alice\" A::B alice\n\
uid|Namespace::Type::\"a::b::c\" => Namespace::Type::\"a::b::c\" Namespace::Type a::b::c\n\
uid|A::\"has spaces\" => A::\"has spaces\" A has spaces\n\
uid|A::\"A::B::\\\"quoted\\\"\" => A::\"A::B::\\\"quoted\\\"\" A A::B::\"quoted\"\n\
uid|A::\"\" => A::\"\" A \n\
uid|A::\"\\n\" => A::\"\\n\" A ¶\n\
uid|A::\"\\t\\\\\" => A::\"\\t\\\\\" A \t\\\n\
uid|A::\"it\\'s\\t\" => A::\"it\\'s\\t\" A it's\t\n\
uid|A::\"\\0\\u{1}\\u{1f}\\u{7f}\" => A::\"\\0\\u{1}\\u{1f}\\u{7f}\" A \0\u{1}\u{1f}\u{7f}\n\
uid|A::\"é\" => A::\"é\" A é\n\
uid|A::\"\\u{80}\" => A::\"\\u{80}\" A \u{80}\n\
uid|A::\"é\\u{200b}\" => A::\"é\\u{200b}\" A é\u{200b}\n\
# a text of another form is not normalized\n\
uid| => not a normalized entity uid\n\
uid|\" => not a normalized entity uid\n\
uid|\"alice\" => not a normalized entity uid\n\
uid|A::B => not a normalized entity uid\n\
uid|A::alice => not a normalized entity uid\n\
uid|A::\" => not a normalized entity uid\n\
uid|A :: \"alice\" => not a normalized entity uid\n\
uid|A::\"alice\"  => not a normalized entity uid\n\
uid|A::\"alice\"//comment => not a normalized entity uid\n\
uid|__cedar::alice\" => not a normalized entity uid\n\
uid|A::\"it's\" => not a normalized entity uid\n\
uid|A::\"a\"b\" => not a normalized entity uid\n\
uid|A::\"a::\"b\" => not a normalized entity uid\n\
uid|A::\"\\u{0041}\" => not a normalized entity uid\n\
uid|A::\"\\u{41}\" => not a normalized entity uid\n\
uid|A::\"\\u{9}\" => not a normalized entity uid\n\
uid|A::\"\\u{7F}\" => not a normalized entity uid\n\
uid|A::\"\\u{d800}\" => not a normalized entity uid\n\
uid|A::\"\\u{110000}\" => not a normalized entity uid\n\
uid|A::\"\\x41\" => not a normalized entity uid\n\
uid|A::\"\\*\" => not a normalized entity uid\n\
uid|A::\"a\\\" => not a normalized entity uid\n\
uid|A::\"a\tb\" => not a normalized entity uid\n\
uid|A::\"a¶b\" => not a normalized entity uid\n\
uid|A::\"\\u{e9}\" => not a normalized entity uid\n\
# the type is looked at first: whether what stands behind it is right or wrong, the name is refused\n\
uid|::\"alice\" => not a valid name\n\
uid|if::\"alice\" => not a valid name\n\
uid|__cedar::\"alice\" => not a valid name\n\
uid| A::\"alice\" => not a valid name\n\
uid|A ::\"alice\" => not a valid name\n\
uid|A::::\"alice\" => not a valid name\n\
uid|1A::\"alice\" => not a valid name\n\
uid|é::\"alice\" => not a valid name\n\
uid|if::\"it's\" => not a valid name\n\
# an action has a type whose last component is `Action`\n\
uid|Action::\"view\" => Action::\"view\" Action view acts\n\
uid|Foo::Action::\"view\" => Foo::Action::\"view\" Foo::Action view acts\n\
uid|Foo::\"view\" => Foo::\"view\" Foo view\n\
uid|Action::Foo::\"view\" => Action::Foo::\"view\" Action::Foo view\n\
uid|Foo::\"Action\" => Foo::\"Action\" Foo Action\n\
uid|action::\"view\" => action::\"view\" action view\n\
uid|Actions::\"view\" => Actions::\"view\" Actions view\n\
action => Action\n\
# past ASCII only the escape that is written is read: the second is as long and means the same\n\
uid|A::\"\\u{200b}\" => A::\"\\u{200b}\" A \u{200b}\n\
uid|A::\"\\u{200B}\" => not a normalized entity uid\n\
# uids are ordered by the last component of the type, then by its path, then by the eid\n\
ascend|uid|AA::\"aaa\",AA::\"zzz\",B::A::AA::\"a\",C::AA::\"a\",B::\"aaa\",B::\"aab\",A::B::\"a\",A::A::B::\"a\",a::\"a\" => yes\n\
# a typename is one identifier, and the eid stands as it is\n\
typename|User|it's \\n => User::\"it\\'s \\\\n\" User it's \\n\n\
typename|A::B|a => not a valid name\n\
typename||a => not a valid name\n\
typename| A|a => not a valid name\n\
typename|A |a => not a valid name\n\
typename|if|a => not a valid name\n\
typename|__cedar|a => not a valid name\n\
typename|1|a => not a valid name\n\
typename|A::|a => not a valid name\n\
# a uid is taken apart\n\
apart|A::B::\"x\" => A::B x\n\
# an eid is escaped with no quotes\n\
escaped|plain => plain\n\
escaped| => \n\
escaped|\"quoted\" => \\\"quoted\\\"\n\
escaped|\0\t\r¶'\\\u{1b} => \\0\\t\\r\\n\\'\\\\\\u{1b}\n\
escaped|é => é\n\
escaped|é¶ => é\\n\n\
# eids are compared by their bytes\n\
ascend|eid|a,b => yes\n\
# refusals have their texts\n\
refusal|not normalized => not a normalized entity uid\n\
refusal|no name => not a valid name\n\
refusal|memory => out of memory";

#[test]
fn rows_of_texts_hold(rt: HostRuntime) -> Result<(), Fail> {
    all_hold(rt.alloc(), ROWS, row)
}
