// A prelude at its limit.
ghost use Rattle.std.specs.Prelude.{None};

use crate::hosts::ItemHost;
use crate::item::{ConstParamId, Item, ItemId, ItemKind, PlaceId};
use crate::prelude::{Prelude, PreludeRefusal};
use format::ids::{Name, OwnerId};

// A host that has nothing.
#[derive(Clone, Copy)]
struct Nothing;

impl ItemHost for Nothing {
    ghost tables = { λ _. record { items = λ _ _. None; const_params = λ _ _. None } };

    fn item(&self, _place: PlaceId, _name: Name) -> Option<Item> {
        None
    }

    fn const_param(&self, _owner: OwnerId, _name: Name) -> Option<ConstParamId> {
        None
    }
}

fn add(prelude: &mut Prelude<Nothing>, name: u32) -> Result<(), PreludeRefusal> {
    let item = Item {
        kind: ItemKind::Static,
        id: ItemId(name),
    };
    prelude.add(Name(name), item)
}

fn found(prelude: &Prelude<Nothing>, place: u32, name: u32) -> Option<ItemId> {
    let item = prelude.item(PlaceId(place), Name(name))?;
    Some(item.id)
}

#[test]
fn takes_64_names_and_no_more(rt: HostRuntime) {
    let mut prelude = Prelude::over(Nothing);
    for name in 3..66 {
        assert!(rt; add(&mut prelude, name) == Ok(()));
    }
    // At 63 names a name that is there is refused for that, at 64 because the prelude is full.
    assert!(rt; add(&mut prelude, 3) == Err(PreludeRefusal::NameTaken));
    assert!(rt; add(&mut prelude, 66) == Ok(()));
    assert!(rt; add(&mut prelude, 3) == Err(PreludeRefusal::Full));
    assert!(rt; add(&mut prelude, 67) == Err(PreludeRefusal::Full));
    assert_eq!(rt; PreludeRefusal::Full.number(), 25);
    assert_eq!(rt; PreludeRefusal::NameTaken.number(), 26);
    assert!(rt; found(&prelude, 0, 66) == Some(ItemId(66)));
    assert!(rt; found(&prelude, 0, 67) == None);
    assert!(rt; found(&prelude, 1, 66) == None);
    let below = prelude.into_below();
    assert!(rt; below.item(PlaceId(0), Name(66)).is_none());
}
