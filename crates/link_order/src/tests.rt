//! That runs and items are found.

use crate::found::found_at;
use crate::referring::Referring;
use crate::run::run_of;
use link_core::At;
use std::test::Fail;

// A place, for a reference of which nothing else is known.
#[derive(Clone, Copy)]
struct Item {
    at: At,
}

impl Referring for Item {
    ghost use Rattle.std.specs.Prelude.{[], pos};

    ghost use_of = { λ p. record {
      object = p.at.object;
      record_of = record {
        machine = 0;
        bytes = [];
        sections = [];
        symbols = [];
        references = [];
        groups = [];
      };
      reference = record {
        section = p.at.section;
        index = p.at.index;
        offset = 0;
        symbol = 0;
        kind = 0;
        addend = pos 0;
      };
    } };

    fn at(&self) -> At {
        self.at
    }
}

fn placed(object: u32, section: u32, index: u32) -> Item {
    Item {
        at: At {
            object,
            section,
            index,
        },
    }
}

#[test]
fn runs_and_items_are_found(rt: HostRuntime) {
    let items = [
        placed(0, 1, 0),
        placed(0, 4, 0),
        placed(0, 4, 2),
        placed(2, 1, 0),
        placed(2, 4, 0),
    ];
    assert_eq!(rt; run_of(&items, 0, 4), (1, 3));
    assert_eq!(rt; run_of(&items, 2, 4), (4, 5));
    assert_eq!(rt; run_of(&items, 1, 4), (3, 3));
    let wanted = placed(0, 4, 2).at;
    assert_eq!(rt; found_at(&items, &wanted).map(|item| item.at), Some(wanted));
    assert_eq!(rt; found_at(&items, &placed(0, 4, 1).at).is_none(), true);
}
