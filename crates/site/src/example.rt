//! A small site, on which the worked examples are told.
ghost use Rattle.std.specs.Prelude.{◌≡◌, [], ◌∷◌, Ok};
ghost use Rattle.site.specs.Banks.{bank_as};
ghost use Rattle.site.specs.Examples.{group, feeder, tag, WorkedExamples};

use crate::site_bank::{SiteBank, open};
use participants::answer::SiteFault;
use terms::{Level, Tag};

/// The name T7: two bytes, and zero bytes up to eight.
pub const T7: u64 = 0x5437_0000_0000_0000;

// One function for each list, so that a contract says what it lists.
fn groups() -> [Level; 1]
    ensures { result ≡ record { value = 3; ceiling = 4 } ∷ [] }
{
    [Level {
        value: 3,
        ceiling: 4,
    }]
}

fn feeders() -> [Level; 1]
    ensures { result ≡ record { value = 50; ceiling = 300 } ∷ [] }
{
    [Level {
        value: 50,
        ceiling: 300,
    }]
}

/// One group, 3 of 4; one feeder, 50 of 300; one tag, T7, that does not hang.
pub fn site() -> Result<SiteBank, SiteFault>
    ensures site { bank_as result ≡ Ok (group ∷ feeder ∷ tag ∷ []) }
    ensures examples { WorkedExamples }
{
    let tags = [Tag { name: T7, value: 1 }];
    open(&groups(), &feeders(), &tags)
}
