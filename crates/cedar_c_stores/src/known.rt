//! The types in earlier texts of uids. Uids of these types are parsed faster.
ghost use Rattle.std.specs.Prelude.{MatchResult, ◌⊎◌};
ghost use Rattle.cedar_ids.specs.TextOf.{IsNameText};
ghost use Rattle.cedar_ids.specs.Views.{type_name};
ghost use Rattle.cedar_c_lists.specs.Texts.{AreReadAt, IsOneUnread, IsReadOf, IsUnread, ReadsUid, ReadsUidAt};
ghost use Rattle.cedar_c_stores.specs.Types.{IsNoType};

use cedar_c_lists::{Reason, Span, text_at, type_of, uid_of};
use cedar_ids::entity::{EntityType, EntityUID};
use cedar_lines::known_types::{KnownTypes, uid_of_text};
use std::alloc::Global;
use std::marker::Model;
use std::str;

/// The types in earlier texts of uids. No result depends on them. Contracts do not mention them.
#[derive(Drop)]
pub struct Known {
    types: KnownTypes,
}

impl Model for Known {
    ghost Value = { Unit {0} };

    ghost view = { λ k. tt };
}

impl Known {
    // Creates a value without known types. Does not allocate.
    pub(crate) fn new(alloc: Global) -> Known {
        Known {
            types: KnownTypes::new(alloc),
        }
    }

    // Parses the uid in a text, as `uid_of` does. Skips parsing the type if the text is ASCII without escapes and the
    // type is known. The first 16 types are stored.
    pub(crate) fn uid_of(&mut self, alloc: Global, text: &[u8]) -> Result<EntityUID, Reason>
        ensures { ReadsUid result text.now }
    {
        if !text.is_ascii() {
            return uid_of(alloc, text);
        }
        let Ok(line) = str::from_utf8(text) else {
            return Err(Reason::NotAUid);
        };
        if let Some(uid) = uid_of_text(alloc, &mut self.types, line)? {
            return Ok(uid);
        }
        uid_of(alloc, text)
    }

    // Parses two uids.
    pub(crate) fn pair_of(
        &mut self,
        alloc: Global,
        first: &[u8],
        second: &[u8],
    ) -> Result<(EntityUID, EntityUID), Reason>
        ensures { MatchResult result (λ p. IsReadOf p.0 first.now × IsReadOf p.1 second.now)
            (λ w. IsUnread first.now w ⊎ IsUnread second.now w) }
    {
        let one = self.uid_of(alloc, first)?;
        match self.uid_of(alloc, second) {
            Ok(other) => Ok((one, other)),
            Err(reason) => Err(reason),
        }
    }

    // Parses a uid and the name of a type.
    pub(crate) fn uid_and_type_of(
        &mut self,
        alloc: Global,
        text: &[u8],
        ty: &[u8],
    ) -> Result<(EntityUID, EntityType), Reason>
        ensures { MatchResult result (λ p. IsReadOf p.0 text.now × IsNameText (type_name p.1) ty.now)
            (λ w. IsUnread text.now w ⊎ IsNoType ty.now w) }
    {
        let uid = self.uid_of(alloc, text)?;
        match type_of(alloc, ty) {
            Ok(ty) => Ok((uid, ty)),
            Err(reason) => Err(reason),
        }
    }

    // Parses the uid in a part of a text. Returns `BadArgument` if the part is not within the text.
    fn uid_at(&mut self, alloc: Global, text: &[u8], at: Span) -> Result<EntityUID, Reason>
        ensures { ReadsUidAt result text.now at }
    {
        match text_at(text, at) {
            Ok(text) => self.uid_of(alloc, text),
            Err(reason) => Err(reason),
        }
    }

    // Parses the uids in parts of a text.
    pub(crate) fn uids_of(
        &mut self,
        alloc: Global,
        text: &[u8],
        spans: &[Span],
    ) -> Result<Vec<EntityUID>, Reason>
        ensures { MatchResult result (λ v. AreReadAt text.now v.items spans.now)
            (IsOneUnread text.now spans.now) }
    {
        let mut uids = Vec::new(alloc);
        for span in spans {
            uids.push(self.uid_at(alloc, text, *span)?)?;
        }
        Ok(uids)
    }
}
