//! The iterator over the types in a constraint. Contracts see it as the list of the remaining items.
ghost use Rattle.std.specs.Prelude.{◌≡◌, ◌++◌};
ghost use Rattle.std.specs.Option.{option_map, option_to_list};
ghost use Rattle.std.specs.Iterator.{YieldsFirstBy, item_count};
ghost use Rattle.cedar_ids.specs.Views.{type_name};

use cedar_ids::entity::EntityType;
use std::marker::Model;

/// An iterator over the types in a principal or resource constraint: the type of its uid, then the stated type.
#[derive(Drop)]
pub struct ConstraintTypeNames<'a> {
    of_uid: Option<&'a EntityType>,
    stated: Option<&'a EntityType>,
}

impl<'a> Model for ConstraintTypeNames<'a> {
    ghost use Rattle.std.specs.Prelude.{List, ◌++◌};
    ghost use Rattle.std.specs.Option.{option_map, option_to_list};
    ghost use Rattle.cedar_ids.specs.Name.{NameParts};
    ghost use Rattle.cedar_ids.specs.Views.{type_name};

    ghost Value = { List NameParts };

    ghost view = { λ i. option_to_list (option_map (λ t. type_name t.now) i.of_uid)
        ++ option_to_list (option_map (λ t. type_name t.now) i.stated) };
}

impl<'a> ConstraintTypeNames<'a> {
    // Creates an iterator over these types.
    pub(crate) fn of(
        of_uid: Option<&'a EntityType>,
        stated: Option<&'a EntityType>,
    ) -> ConstraintTypeNames<'a>
        ensures { result ≡ option_to_list (option_map (λ t. type_name t.now) of_uid.entry)
            ++ option_to_list (option_map (λ t. type_name t.now) stated.entry) }
    {
        ConstraintTypeNames { of_uid, stated }
    }
}

impl<'a> Iterator for ConstraintTypeNames<'a> {
    type Item = &'a EntityType;

    ghost next_gives = { YieldsFirstBy (λ t. type_name t.now) (λ s. s) };

    ghost remaining = { item_count (λ s. s) };

    fn next(&mut self) -> Option<&'a EntityType> {
        match self.of_uid.take() {
            Some(ty) => Some(ty),
            None => self.stated.take(),
        }
    }
}
