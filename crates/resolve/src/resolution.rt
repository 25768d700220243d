// What a name is found to mean.
ghost use Rattle.resolve.specs.Telling.{ToldApart, tells};
ghost use Rattle.std.specs.Prelude.{◌≡◌, true, false, ◌≢◌};

use format::ids::{BindingId, OwnerId};
use host::item::{ConstParamId, Item};

#[derive(Clone, Copy, PartialEq, Eq)]
pub enum Resolution {
    // A local variable or parameter of the body.
    Local(BindingId),
    // An item of a block or of the module.
    Item(Item),
    // A constant parameter of an owner around the body.
    ConstParam(ConstParamId),
    // The impl around the body, by the name `Self`.
    ImplSelf(OwnerId),
    // An answer like the others, which is counted and compared with them, and not the lack of one.
    Unfound,
}

// What sort of thing a name means.
#[derive(Clone, Copy, PartialEq, Eq)]
pub enum Sort {
    Local,
    Item,
    ConstParam,
    ImplSelf,
    Unfound,
}

impl Resolution {
    pub fn sort(self) -> Sort
        ensures is_the_sort_that_it_tells { result ≡ (tells self).sort }
    {
        match self {
            Resolution::Local(_) => Sort::Local,
            Resolution::Item(_) => Sort::Item,
            Resolution::ConstParam(_) => Sort::ConstParam,
            Resolution::ImplSelf(_) => Sort::ImplSelf,
            Resolution::Unfound => Sort::Unfound,
        }
    }

    // Whether two meanings are the same. It says of `==` what the derive does not: by what they tell.
    pub fn is(self, other: Resolution) -> bool
        ensures is_true_of_the_same { result ≡ true → self ≡ other }
        ensures is_false_of_others { result ≡ false → tells self ≢ tells other }
        ensures goes_by_what_they_tell { ToldApart }
    {
        self == other
    }
}
