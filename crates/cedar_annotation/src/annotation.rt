//! Annotations of policies: keys and texts that do not affect any decision.
ghost use Rattle.std.specs.Prelude.{◌≡◌, IfOk, List, ℕ, IsTrue, ◌↔◌, []};
ghost use Rattle.std.specs.Option.{option_map};
ghost use Rattle.std.specs.Iterator.{YieldsFirst, YieldsFirstBy, item_count};
ghost use Rattle.std.specs.Ordering.{as_partial_cmp};
ghost use Rattle.std.specs.Cmp.{partial_equiv_from_equiv, po};
ghost use Rattle.std.specs.Cmp.Lexicographic.{texts_ties, texts_po};
ghost use Rattle.std.specs.Hash as fed;
ghost use Rattle.std.specs.Cmp.Rules.{hashing};
ghost use Rattle.std.proofs.Common.{rules, refl};
ghost use Rattle.cedar_ids.specs.Texts.{same_text, text_order};
ghost use Rattle.cedar_ids.specs.laws.TextLaws.{same_text_equiv, text_order_total};
ghost use Rattle.cedar_annotation.specs.Annotations.{value_at, KeysAscend, AreAnnotationsOf, value_or_empty};
ghost use Rattle.cedar_annotation.specs.Annotations.{annotation_output, annotations_output};
ghost use Rattle.cedar_annotation.specs.AnnotationOrder.{annotations_cmp, same_annotations, annotations_hash};
ghost use Rattle.cedar_annotation.specs.laws.AnnotationOrders.{annotations_ties, annotations_cmp_total};
ghost use Rattle.cedar_annotation.specs.laws.AnnotationOrders.{same_annotations_equiv, annotations_hash_respects};

use cedar_ids::escape::Escaped;
use cedar_ids::id::AnyId;
use cedar_ids::loc::Loc;
use std::alloc::{AllocError, Global};
use std::cmp::Ordering;
use std::collections::{BTreeMap, btree_map};
use std::fmt;
use std::hash::{Hash, Hasher};
use std::marker::Model;

/// The value of an annotation of a policy: any text.
///
/// Equality, order and hash use only the value, and ignore the location. The order compares bytes. `clone` allocates a
/// copy of the value. `Display` writes the escaped value between quotes. If the value is not ASCII, it is written as by
/// `str::escape_debug`. Writing does not allocate. Contracts see the bytes of the value.
///
/// # Differences from cedar-policy-core
///
/// In the original the order may depend on the location.
#[derive(Debug, Drop)]
pub struct Annotation {
    /// The value.
    pub val: String,
    /// The location of the key and the value, if it is known.
    pub loc: Option<Loc>,
}

impl Model for Annotation {
    ghost use Rattle.std.specs.Prelude.{List, ℕ};
    ghost use Rattle.std.specs.String.{string_bytes};

    ghost Value = { List ℕ };

    ghost view = { λ a. string_bytes a.val };
}

impl Annotation {
    /// Creates an annotation with this value, or with the empty text for `None`. Does not allocate: `alloc` becomes the
    /// allocator of the empty text.
    ///
    /// # Differences from cedar-policy-core
    ///
    /// The original takes no allocator.
    pub fn with_optional_value(alloc: Global, val: Option<String>, loc: Option<Loc>) -> Annotation
        ensures { result ≡ value_or_empty val }
    {
        match val {
            Some(val) => Annotation { val, loc },
            None => Annotation {
                val: String::new(alloc),
                loc,
            },
        }
    }

    /// Returns the value. Does not allocate.
    pub fn as_ref(&self) -> &str
        ensures { result.now ≡ self.now }
    {
        self.val.as_str()
    }
}

impl Clone for Annotation {
    ghost is_clone = { λ x y. y ≡ x };

    fn clone(&self) -> Result<Annotation, AllocError> {
        Ok(Annotation {
            val: self.val.clone()?,
            loc: self.loc.clone()?,
        })
    }
}

impl PartialEq for Annotation {
    ghost eq = { same_text };

    ghost laws = { partial_equiv_from_equiv same_text_equiv };

    fn eq(&self, other: &Annotation) -> bool {
        self.val == other.val
    }
}

impl Eq for Annotation {
    ghost laws = { same_text_equiv };
}

impl PartialOrd for Annotation {
    ghost partial_cmp = { as_partial_cmp text_order };

    ghost laws = { texts_po };

    fn partial_cmp(&self, other: &Annotation) -> Option<Ordering> {
        Some(self.cmp(other))
    }
}

impl Ord for Annotation {
    ghost cmp = { text_order };

    ghost total = { text_order_total };

    ghost matches_partial_cmp = { λ x y. refl };

    ghost matches_eq = { texts_ties };

    fn cmp(&self, other: &Annotation) -> Ordering {
        self.val.cmp(&other.val)
    }
}

impl Hash for Annotation {
    ghost hash_input = { fed.str };

    ghost respects_eq = { Prim.search (hashing, rules) };

    fn hash<H: Hasher>(&self, state: &mut H) {
        self.val.hash(state);
    }
}

impl fmt::Display for Annotation {
    ghost output = { annotation_output };

    fn fmt<W: fmt::Write>(&self, f: &mut fmt::Formatter<W>) -> fmt::Result {
        let text = Escaped(self.as_ref());
        write!(f, "\"{text}\"")
    }
}

/// The annotations of a policy: a map from keys to values.
///
/// Equality, order and hash use the pairs in ascending order of their keys, and ignore locations. `clone` allocates in
/// proportion to the content. `Display` writes a line `@key("value")` for each pair, by key. A value that is not ASCII
/// is written as by `str::escape_debug`. Writing does not allocate. Contracts see the list of the pairs, with keys in
/// ascending order of their bytes.
#[derive(Debug, Drop)]
pub struct Annotations {
    pairs: BTreeMap<AnyId, Annotation>,
}

impl Model for Annotations {
    ghost use Rattle.cedar_annotation.specs.Annotations.{AnnotationsView};
    ghost use Rattle.cedar_annotation.specs.Codes.{annotations_code};

    ghost Value = { AnnotationsView };

    ghost coded = { annotations_code };

    ghost view = { λ a. a.pairs.entries };
}

impl Annotations {
    /// Creates an empty map. Does not allocate.
    pub fn new(alloc: Global) -> Annotations
        ensures { result ≡ [] }
    {
        Annotations {
            pairs: BTreeMap::new(alloc),
        }
    }

    /// Creates the annotations of these pairs. If a key occurs more than once, its last value is kept.
    ///
    /// # Errors
    ///
    /// Returns `AllocError` if an allocation fails.
    ///
    /// # Complexity
    ///
    /// One lookup for each pair. Allocates O(n), where n is the length of the list.
    ///
    /// # Differences from cedar-policy-core
    ///
    /// The original collects annotations from any iterator of pairs.
    pub fn try_from_iter(
        alloc: Global,
        pairs: Vec<(AnyId, Annotation)>,
    ) -> Result<Annotations, AllocError>
        ensures { IfOk result (λ a. AreAnnotationsOf pairs.items a) }
    {
        let pairs = collected(alloc, pairs)?;
        Ok(Annotations { pairs })
    }

    /// Returns the annotation with this key, if there is one.
    ///
    /// # Complexity
    ///
    /// O(log n), where n is the number of annotations. Does not allocate.
    pub fn get(&self, key: &AnyId) -> Option<&Annotation>
        ensures { option_map (λ a. a.now) result ≡ value_at key.now self.now }
    {
        self.pairs.get(key)
    }

    /// Iterates over the annotations with their keys, in ascending order of the keys. Does not allocate.
    pub fn iter(&self) -> Iter<'_>
        ensures pairs { result ≡ self.now }
        ensures ascending { KeysAscend self.now }
    {
        Iter {
            inner: self.pairs.iter(),
        }
    }

    /// Returns whether there are no annotations. Does not allocate.
    pub fn is_empty(&self) -> bool
        ensures { IsTrue result ↔ (self.now ≡ []) }
    {
        self.pairs.is_empty()
    }
}

// Returns the map of some pairs. The last value of a key is kept.
fn collected(
    alloc: Global,
    pairs: Vec<(AnyId, Annotation)>,
) -> Result<BTreeMap<AnyId, Annotation>, AllocError>
    ensures { IfOk result (λ m. AreAnnotationsOf pairs.items m.entries) }
{
    let mut all = BTreeMap::new(alloc);
    for (key, annotation) in pairs {
        drop(all.insert(key, annotation)?);
    }
    Ok(all)
}

impl From<BTreeMap<AnyId, Annotation>> for Annotations {
    ghost from_gives = { λ m a. a ≡ m.entries };

    fn from(pairs: BTreeMap<AnyId, Annotation>) -> Annotations {
        Annotations { pairs }
    }
}

impl IntoIterator for Annotations {
    type Item = (AnyId, Annotation);

    type IntoIter = IntoIter;

    ghost into_iter_gives = { λ a i. i ≡ a };

    fn into_iter(self) -> IntoIter {
        let Annotations { pairs } = self;
        IntoIter {
            inner: pairs.into_iter(),
        }
    }
}

/// An iterator over the annotations of a policy with their keys, in ascending order of the keys.
#[derive(Debug, Drop)]
pub struct Iter<'a> {
    inner: btree_map::Iter<'a, AnyId, Annotation>,
}

impl<'a> Model for Iter<'a> {
    ghost use Rattle.cedar_annotation.specs.Annotations.{AnnotationsView};
    ghost use Rattle.cedar_annotation.specs.Codes.{annotations_code};

    ghost Value = { AnnotationsView };

    ghost coded = { annotations_code };

    ghost view = { λ i. i.inner };
}

impl<'a> Iterator for Iter<'a> {
    type Item = (&'a AnyId, &'a Annotation);

    ghost next_gives = { YieldsFirstBy (λ p. (p.0.now, p.1.now)) (λ s. s) };

    ghost remaining = { item_count (λ s. s) };

    fn next(&mut self) -> Option<(&'a AnyId, &'a Annotation)> {
        self.inner.next()
    }
}

/// An owning iterator over the annotations of a policy with their keys, in ascending order of the keys.
#[derive(Debug, Drop)]
pub struct IntoIter {
    inner: btree_map::IntoIter<AnyId, Annotation>,
}

impl Model for IntoIter {
    ghost use Rattle.cedar_annotation.specs.Annotations.{AnnotationsView};
    ghost use Rattle.cedar_annotation.specs.Codes.{annotations_code};

    ghost Value = { AnnotationsView };

    ghost coded = { annotations_code };

    ghost view = { λ i. i.inner };
}

impl Iterator for IntoIter {
    type Item = (AnyId, Annotation);

    ghost next_gives = { YieldsFirst (λ s. s) };

    ghost remaining = { item_count (λ s. s) };

    fn next(&mut self) -> Option<(AnyId, Annotation)> {
        self.inner.next()
    }
}

impl Clone for Annotations {
    ghost is_clone = { λ x y. y ≡ x };

    fn clone(&self) -> Result<Annotations, AllocError> {
        let pairs = self.pairs.clone()?;
        Ok(Annotations { pairs })
    }
}

impl PartialEq for Annotations {
    ghost eq = { same_annotations };

    ghost laws = { partial_equiv_from_equiv same_annotations_equiv };

    fn eq(&self, other: &Annotations) -> bool {
        self.pairs == other.pairs
    }
}

impl Eq for Annotations {
    ghost laws = { same_annotations_equiv };
}

impl PartialOrd for Annotations {
    ghost partial_cmp = { as_partial_cmp annotations_cmp };

    ghost laws = { po annotations_cmp_total annotations_ties };

    fn partial_cmp(&self, other: &Annotations) -> Option<Ordering> {
        Some(self.cmp(other))
    }
}

impl Ord for Annotations {
    ghost cmp = { annotations_cmp };

    ghost total = { annotations_cmp_total };

    ghost matches_partial_cmp = { λ x y. refl };

    ghost matches_eq = { annotations_ties };

    fn cmp(&self, other: &Annotations) -> Ordering {
        self.pairs.cmp(&other.pairs)
    }
}

impl Hash for Annotations {
    ghost hash_input = { annotations_hash };

    ghost respects_eq = { annotations_hash_respects };

    fn hash<H: Hasher>(&self, state: &mut H) {
        self.pairs.hash(state);
    }
}

impl fmt::Display for Annotations {
    ghost output = { annotations_output };

    fn fmt<W: fmt::Write>(&self, f: &mut fmt::Formatter<W>) -> fmt::Result {
        for (key, annotation) in &self.pairs {
            write!(f, "@{key}({annotation})\n")?;
        }
        Ok(())
    }
}
