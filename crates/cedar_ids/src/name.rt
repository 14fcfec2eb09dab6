//! Names: identifiers separated by `::`.
ghost use Rattle.std.specs.Prelude.{◌≡◌, ◌<◌, ◌∷◌, [], Some, IsTrue, IfOk, MatchOption, length};
ghost use Rattle.std.specs.Option.{option_copied};
ghost use Rattle.std.specs.List.{list_all};
ghost use Rattle.cedar_ids.specs.Reading.{is_id};
ghost use Rattle.cedar_ids.specs.laws.NameReading.{components};
ghost use Rattle.cedar_ids.specs.Reads.{Reads};
ghost use Rattle.cedar_ids.specs.TextOf.{IsName, IsNameText, IsUnqualifiedText};
ghost use Rattle.cedar_ids.specs.Qualified.{qualified, all_components};
ghost use Rattle.std.specs.Ordering.{as_partial_cmp};
ghost use Rattle.std.specs.Cmp.{partial_equiv_from_equiv};
ghost use Rattle.std.proofs.Common.{refl};
ghost use Rattle.cedar_ids.specs.Name.{NameParts, is_unqualified, name_eq, name_cmp, name_hash_input};
ghost use Rattle.cedar_ids.specs.Printed.{printed_name};
ghost use Rattle.cedar_ids.specs.laws.NameLaws.{name_eq_equiv, name_cmp_total, name_ties, name_po, name_hash_respects};

use crate::err::ParseErrors;
use crate::id::Id;
use crate::loc::Loc;
use std::alloc::{AllocError, Global};
use std::cmp::Ordering;
use std::fmt;
use std::hash::{Hash, Hasher};
use std::marker::Model;
use std::rc::{Rc, RcStr};

/// A name: a path of zero or more identifiers, followed by a last identifier, the basename. It has an optional
/// location.
///
/// Equality, order and hash use only the components. The order compares the basenames first and then the paths as
/// lists, each text by bytes. `clone` shares the path and the texts, and copies no characters. `Display` writes the
/// components separated by `::`. Contracts see only the components.
#[derive(Debug, Drop)]
pub struct Name {
    path: Rc<Vec<Id>>,
    basename: Id,
    loc: Option<Loc>,
}

impl Model for Name {
    ghost use Rattle.cedar_ids.specs.Name.{NameParts};

    ghost Value = { NameParts };

    ghost use Rattle.cedar_ids.specs.TextOf.{IsName};

    ghost view = { λ n. record { path = n.path.value.items; basename = n.basename } };

    ghost invariant = { λ n. IsName (record { path = n.path.value.items; basename = n.basename }) };
}

// Returns the text before the first `::` and the text after it, if there is a `::`. The first `:` is looked for first,
// because a search for one byte costs less than a search for a text.
fn split_mark(text: &str) -> Option<(&str, &str)>
    ensures parts { MatchOption result (components text.now ≡ text.now ∷ [])
        (λ x. components text.now ≡ x.0.now ∷ components x.1.now) }
    ensures shorter { MatchOption result (Unit {0}) (λ x. length x.1.now < length text.now) }
{
    let (front, back) = text.split_once(':')?;
    match back.strip_prefix(':') {
        Some(rest) => Some((front, rest)),
        None => text.split_once("::"),
    }
}

// Reads a name, and gives it the location `loc`.
pub(crate) fn read_name(alloc: Global, text: &str, loc: Option<Loc>) -> Result<Name, ParseErrors>
    ensures { Reads IsNameText result text.now }
{
    let mut path = Vec::new(alloc);
    let mut rest = text;
    while let Some((front, back)) = split_mark(rest) {
        path.push(Id::from_normalized_str(alloc, front)?)?;
        rest = back;
    }
    let basename = Id::from_normalized_str(alloc, rest)?;
    let path = Rc::new(alloc, path)?;
    Ok(Name {
        path,
        basename,
        loc,
    })
}

impl Name {
    /// Reads one identifier as a name without a path. The name has no location. `A::B` is invalid here.
    ///
    /// # Errors
    ///
    /// - `InvalidName`: the text is not an identifier, or it is a reserved word.
    /// - `Memory`: an allocation failed.
    ///
    /// # Complexity
    ///
    /// O(n), where n is the length of the text. Allocates a copy of the text.
    ///
    /// # Differences from cedar-policy-core
    ///
    /// The original uses its parser, which allows blanks around the identifier.
    pub fn parse_unqualified_name(alloc: Global, text: &str) -> Result<Name, ParseErrors>
        ensures { Reads IsUnqualifiedText result text.now }
    {
        let basename = Id::from_normalized_str(alloc, text)?;
        let path = Rc::new(alloc, Vec::new(alloc))?;
        Ok(Name {
            path,
            basename,
            loc: None,
        })
    }

    /// Reads a printed name: identifiers separated by `::`, without blanks. The location of the name is the whole text.
    ///
    /// # Errors
    ///
    /// - `InvalidName`: the text is not such a name.
    /// - `Memory`: an allocation failed.
    ///
    /// # Complexity
    ///
    /// O(n), where n is the length of the text. Allocates O(n) bytes.
    pub fn from_normalized_str(alloc: Global, text: &str) -> Result<Name, ParseErrors>
        ensures { Reads IsNameText result text.now }
    {
        let src = RcStr::from_str(alloc, text)?;
        let loc = Loc::new(0, text.len(), src);
        read_name(alloc, text, Some(loc))
    }

    /// Returns the last component. Does not allocate.
    pub fn basename(&self) -> &Id
        ensures value { result.now ≡ self.now.basename }
        ensures valid { IsName self.now }
    {
        &self.basename
    }

    /// Returns whether the name has no path. Does not allocate.
    pub fn is_unqualified(&self) -> bool
        ensures { result ≡ is_unqualified self.now }
    {
        self.path.is_empty()
    }

    /// Returns the location, if the name has one. Does not allocate.
    pub fn loc(&self) -> Option<&Loc> {
        self.loc.as_ref()
    }

    // Returns the name with the given location.
    pub(crate) fn with_loc(&self, loc: Option<Loc>) -> Result<Name, AllocError>
        ensures { IfOk result (λ n. n ≡ self.now) }
    {
        let path = self.path.clone()?;
        let basename = self.basename.clone()?;
        Ok(Name {
            path,
            basename,
            loc,
        })
    }

    /// Returns the name inside a namespace. If this name has no path, all components of the namespace become its path.
    /// If this name has a path, or `namespace` is `None`, the name is returned unchanged. The result has the location
    /// of this name.
    ///
    /// # Errors
    ///
    /// Returns `AllocError` if an allocation fails.
    ///
    /// # Complexity
    ///
    /// O(n), where n is the number of components of the namespace. Allocates only the new path and copies no
    /// characters.
    pub fn qualify_with_name(
        &self,
        alloc: Global,
        namespace: Option<&Name>,
    ) -> Result<Name, AllocError>
        ensures { IfOk result (λ n. n ≡ qualified (option_copied namespace.entry) self.now) }
    {
        let Some(namespace) = namespace else {
            return self.clone();
        };
        if !self.is_unqualified() {
            return self.clone();
        }
        let path = namespace.components(alloc)?;
        let path = Rc::new(alloc, path)?;
        Ok(Name {
            path,
            basename: self.basename.clone()?,
            loc: self.loc.clone()?,
        })
    }

    // Returns all components: the path, followed by the basename.
    fn components(&self, alloc: Global) -> Result<Vec<Id>, AllocError>
        ensures items { IfOk result (λ v. v.items ≡ all_components self.now) }
        ensures valid { IfOk result (λ v. IsTrue (list_all is_id v.items)) }
    {
        let mut all = Vec::new(alloc);
        all.reserve(self.path.len())?;
        for id in self.path.iter() {
            all.push(id.clone()?)?;
        }
        all.push(self.basename.clone()?)?;
        Ok(all)
    }
}

impl Clone for Name {
    ghost is_clone = { λ x y. y ≡ x };

    fn clone(&self) -> Result<Name, AllocError> {
        Ok(Name {
            path: self.path.clone()?,
            basename: self.basename.clone()?,
            loc: self.loc.clone()?,
        })
    }
}

impl PartialEq for Name {
    ghost eq = { name_eq };

    ghost laws = { partial_equiv_from_equiv name_eq_equiv };

    fn eq(&self, other: &Name) -> bool {
        self.basename == other.basename && self.path == other.path
    }
}

impl Eq for Name {
    ghost laws = { name_eq_equiv };
}

impl PartialOrd for Name {
    ghost partial_cmp = { as_partial_cmp name_cmp };

    ghost laws = { name_po };

    fn partial_cmp(&self, other: &Name) -> Option<Ordering> {
        Some(self.cmp(other))
    }
}

impl Ord for Name {
    ghost cmp = { name_cmp };

    ghost total = { name_cmp_total };

    ghost matches_partial_cmp = { λ x y. refl };

    ghost matches_eq = { name_ties };

    fn cmp(&self, other: &Name) -> Ordering {
        self.basename
            .cmp(&other.basename)
            .then_with(|| self.path.cmp(&other.path))
    }
}

impl Hash for Name {
    ghost hash_input = { name_hash_input };

    ghost respects_eq = { name_hash_respects };

    fn hash<H: Hasher>(&self, state: &mut H) {
        self.basename.hash(state);
        self.path.hash(state);
    }
}

impl fmt::Display for Name {
    ghost output = { λ n. Some (printed_name n) };

    fn fmt<W: fmt::Write>(&self, f: &mut fmt::Formatter<W>) -> fmt::Result {
        for id in self.path.iter() {
            write!(f, "{id}::")?;
        }
        write!(f, "{}", self.basename)
    }
}
