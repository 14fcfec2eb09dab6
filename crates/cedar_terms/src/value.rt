//! Values: literals, sets, records and extension values.
ghost use Rattle.std.specs.Prelude.{◌≡◌, IsTrue, []};
ghost use Rattle.std.proofs.Common.{refl};
ghost use Rattle.std.specs.Ordering.{as_partial_cmp};
ghost use Rattle.std.specs.Cmp.{partial_equiv_from_equiv};
ghost use Rattle.std.specs.List.Retain.{IsFiltered, DiffersFromLast};
ghost use Rattle.cedar_terms.specs.ValueTree.{same_value};
ghost use Rattle.cedar_terms.specs.ExtensionParts.{same_extension, extension_parts_hash};
ghost use Rattle.cedar_terms.specs.laws.ExtensionLaws.{same_extension_equiv, extension_hash_respects};

use crate::literal::Literal;
use crate::value_hash::{feed, feed_kind};
use crate::value_order::{compare, compare_kinds};
use crate::value_text::show;
use cedar_ids::loc::Loc;
use cedar_ids::name::Name;
use std::alloc::{AllocError, Global};
use std::cmp::Ordering;
use std::collections::BTreeMap;
use std::fmt;
use std::hash::{Hash, Hasher};
use std::marker::Model;
use std::rc::Rc;

/// The result of evaluating an expression: a literal, a set, a record or an extension value.
///
/// Equality, order and hash use only the content, and ignore locations. The order is: literals, sets, records,
/// extension values. Values of the same kind are ordered by their contents. Contracts see a value as a tree without
/// locations.
///
/// `Display` writes `[V, W]`, `{"k": V}` or `f("text")`.
///
/// Comparing, hashing and writing recurse into the value and do not allocate. A value with 10,000 levels does not
/// exhaust an ordinary stack.
#[derive(Debug, Drop)]
#[cycle(value)]
pub struct Value {
    /// The kind and content of the value.
    pub value: ValueKind,
    /// The location of the value in a text, if it is known.
    pub loc: Option<Loc>,
}

/// The kinds of values. `clone` shares the parts.
#[derive(Debug, Drop)]
#[cycle(value)]
pub enum ValueKind {
    /// A literal.
    Lit(Literal),
    /// A set: its elements in ascending order, each once, as `Value::set` creates them.
    ///
    /// Code that fills the variant directly must ensure this order, because nothing checks it. Two lists with the same
    /// elements in different orders are different sets.
    Set(Rc<Vec<Value>>),
    /// A record, with its keys in byte order.
    Record(Rc<BTreeMap<String, Value>>),
    /// An extension value.
    ExtensionValue(Rc<ExtensionValue>),
}

impl Model for Value {
    ghost use Rattle.cedar_terms.specs.ValueTree.{ValueTree, value_size};
    ghost use Rattle.cedar_terms.specs.Codes.{value_code};

    ghost Value = { ValueTree };

    ghost coded = { value_code };

    ghost use Rattle.cedar_terms.specs.ValueViews.{kind_tree};

    ghost view = { λ v. kind_tree v.value };

    ghost size = { value_size };

    ghost use Rattle.cedar_terms.specs.laws.ValueSizes.{deep_le_size};

    ghost size_decreases = { λ a h. deep_le_size a.value };
}

impl Value {
    ghost use Rattle.std.specs.Prelude.{IfOk};
    ghost use Rattle.cedar_terms.specs.Fields.{IsRecordOf, IsSetOf};
    ghost use Rattle.cedar_terms.specs.ValueViews.{kind_tree, named_pairs};

    /// Creates a value with this content and location. Does not allocate.
    pub fn new(value: ValueKind, loc: Option<Loc>) -> Value
        ensures { result ≡ kind_tree value }
    {
        Value { value, loc }
    }

    /// Creates the set of some values: in ascending order, each once. Of equal values, the first one is kept, with its
    /// location.
    ///
    /// # Errors
    ///
    /// Returns `AllocError` if an allocation fails.
    ///
    /// # Complexity
    ///
    /// O(n log n) comparisons, where n is the number of values. Allocates.
    pub fn set(alloc: Global, values: Vec<Value>, loc: Option<Loc>) -> Result<Value, AllocError>
        ensures { IfOk result (IsSetOf values.items) }
    {
        let mut elements = values;
        elements.sort()?;
        let elements = Rc::new(alloc, without_repeats(elements))?;
        Ok(Value::new(ValueKind::Set(elements), loc))
    }

    /// Creates the record of some pairs, with its keys in byte order. If a key occurs more than once, its last value is
    /// kept.
    ///
    /// # Errors
    ///
    /// Returns `AllocError` if an allocation fails.
    ///
    /// # Complexity
    ///
    /// One lookup for each pair. Allocates.
    pub fn record(
        alloc: Global,
        pairs: Vec<(String, Value)>,
        loc: Option<Loc>,
    ) -> Result<Value, AllocError>
        ensures { IfOk result (IsRecordOf (named_pairs pairs.items)) }
    {
        let mut fields = BTreeMap::new(alloc);
        for (key, value) in pairs {
            drop(fields.insert(key, value)?);
        }
        let fields = Rc::new(alloc, fields)?;
        Ok(Value::new(ValueKind::Record(fields), loc))
    }
}

// Returns the values, with only the first of each run of consecutive equal values.
fn without_repeats(values: Vec<Value>) -> Vec<Value>
    ensures { IsFiltered (DiffersFromLast same_value) [] values.items result.items }
{
    let mut kept = values;
    kept.dedup();
    kept
}

impl Clone for Value {
    ghost is_clone = { λ x y. y ≡ x };

    /// Copies the value, with its location. All parts are shared, except that the text of a string literal at the root
    /// is copied.
    ///
    /// # Errors
    ///
    /// Returns `AllocError` if an allocation fails.
    fn clone(&self) -> Result<Value, AllocError> {
        Ok(Value {
            value: self.value.clone()?,
            loc: self.loc.clone()?,
        })
    }
}

impl PartialEq for Value {
    ghost use Rattle.cedar_terms.specs.laws.ValueLaws.{same_value_equiv};

    ghost eq = { same_value };

    ghost laws = { partial_equiv_from_equiv same_value_equiv };

    fn eq(&self, other: &Value) -> bool {
        compare(self, other).is_eq()
    }
}

impl Eq for Value {
    ghost use Rattle.cedar_terms.specs.laws.ValueLaws.{same_value_equiv};

    ghost laws = { same_value_equiv };
}

impl PartialOrd for Value {
    ghost use Rattle.cedar_terms.specs.ValueTree.{value_cmp};
    ghost use Rattle.cedar_terms.specs.laws.ValueLaws.{value_po};

    ghost partial_cmp = { as_partial_cmp value_cmp };

    ghost laws = { value_po };

    fn partial_cmp(&self, other: &Value) -> Option<Ordering> {
        Some(self.cmp(other))
    }
}

impl Ord for Value {
    ghost use Rattle.cedar_terms.specs.ValueTree.{value_cmp};
    ghost use Rattle.cedar_terms.specs.laws.ValueLaws.{value_cmp_total};

    ghost cmp = { value_cmp };

    ghost total = { value_cmp_total };

    ghost matches_partial_cmp = { λ x y. refl };

    ghost matches_eq = { λ x y. refl };

    fn cmp(&self, other: &Value) -> Ordering {
        compare(self, other)
    }
}

impl Hash for Value {
    ghost use Rattle.cedar_terms.specs.ValueHash.{value_hash};
    ghost use Rattle.cedar_terms.specs.laws.ValueLaws.{value_hash_respects};

    ghost hash_input = { value_hash };

    ghost respects_eq = { value_hash_respects };

    fn hash<H: Hasher>(&self, state: &mut H) {
        feed(self, state);
    }
}

impl fmt::Display for Value {
    ghost use Rattle.cedar_terms.specs.ValueTexts.{value_output};

    ghost output = { value_output };

    fn fmt<W: fmt::Write>(&self, f: &mut fmt::Formatter<W>) -> fmt::Result {
        show(self, f)
    }
}

impl Clone for ValueKind {
    ghost use Rattle.cedar_terms.specs.ValueViews.{kind_tree};

    ghost is_clone = { λ x y. kind_tree y ≡ kind_tree x };

    /// Copies the kind and content. All parts are shared, except that the text of a string literal is copied.
    ///
    /// # Errors
    ///
    /// Returns `AllocError` if an allocation fails.
    fn clone(&self) -> Result<ValueKind, AllocError> {
        match self {
            ValueKind::Lit(literal) => Ok(ValueKind::Lit(literal.clone()?)),
            ValueKind::Set(elements) => Ok(ValueKind::Set(elements.clone()?)),
            ValueKind::Record(fields) => Ok(ValueKind::Record(fields.clone()?)),
            ValueKind::ExtensionValue(extension) => {
                Ok(ValueKind::ExtensionValue(extension.clone()?))
            }
        }
    }
}

impl PartialEq for ValueKind {
    ghost use Rattle.cedar_terms.specs.ValueViews.{same_kind};
    ghost use Rattle.cedar_terms.specs.laws.KindLaws.{same_kind_equiv};

    ghost eq = { same_kind };

    ghost laws = { partial_equiv_from_equiv same_kind_equiv };

    fn eq(&self, other: &ValueKind) -> bool {
        compare_kinds(self, other).is_eq()
    }
}

impl Eq for ValueKind {
    ghost use Rattle.cedar_terms.specs.laws.KindLaws.{same_kind_equiv};

    ghost laws = { same_kind_equiv };
}

impl Hash for ValueKind {
    ghost use Rattle.cedar_terms.specs.ValueViews.{kind_hash};
    ghost use Rattle.cedar_terms.specs.laws.KindLaws.{kind_hash_respects};

    ghost hash_input = { kind_hash };

    ghost respects_eq = { kind_hash_respects };

    fn hash<H: Hasher>(&self, state: &mut H) {
        feed_kind(self, state);
    }
}

/// A call of an extension function with one text, for example `ip("10.0.0.1")`. This crate does not interpret the text.
#[derive(Debug, Drop)]
pub struct ExtensionValue {
    /// The function.
    pub func: Name,
    /// The argument.
    pub arg: String,
}

impl Model for ExtensionValue {
    ghost use Rattle.std.specs.Prelude.{string_bytes};
    ghost use Rattle.cedar_terms.specs.ExtensionParts.{ExtensionParts};

    ghost Value = { ExtensionParts };

    ghost view = { λ x. record { func = x.func; arg = string_bytes x.arg } };
}

impl Clone for ExtensionValue {
    ghost is_clone = { λ x y. y ≡ x };

    /// Copies the extension value.
    ///
    /// # Errors
    ///
    /// Returns `AllocError` if an allocation fails.
    fn clone(&self) -> Result<ExtensionValue, AllocError> {
        Ok(ExtensionValue {
            func: self.func.clone()?,
            arg: self.arg.clone()?,
        })
    }
}

impl PartialEq for ExtensionValue {
    ghost eq = { same_extension };

    ghost laws = { partial_equiv_from_equiv same_extension_equiv };

    fn eq(&self, other: &ExtensionValue) -> bool {
        self.func == other.func && self.arg == other.arg
    }
}

impl Eq for ExtensionValue {
    ghost laws = { same_extension_equiv };
}

impl Hash for ExtensionValue {
    ghost hash_input = { extension_parts_hash };

    ghost respects_eq = { extension_hash_respects };

    fn hash<H: Hasher>(&self, state: &mut H) {
        self.func.hash(state);
        self.arg.hash(state);
    }
}
