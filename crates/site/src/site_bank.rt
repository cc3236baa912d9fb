//! The bank of a site: stock 1, ledger 2, registry 3.
ghost use Rattle.std.specs.Prelude.{◌≡◌};
ghost use Rattle.site.specs.Banks.{bank_as, open_bank};

use crate::kinds::{Ledger, Registry, Stock, open_ledger, open_registry, open_stock};
use bank::chain::{NoParticipants, With};
use participants::answer::SiteFault;
use terms::{Level, Tag};

pub type SiteBank = With<Stock, With<Ledger, With<Registry, NoParticipants>>>;

/// The bank of what a site lists, with nothing standing. The first fault is told: groups, then feeders, then tags.
pub fn open(groups: &[Level], feeders: &[Level], tags: &[Tag]) -> Result<SiteBank, SiteFault>
    ensures { bank_as result ≡ open_bank groups.now feeders.now tags.now }
{
    let stock = open_stock(groups)?;
    let ledger = open_ledger(feeders)?;
    let registry = open_registry(tags)?;
    Ok(With {
        first: stock,
        rest: With {
            first: ledger,
            rest: With {
                first: registry,
                rest: NoParticipants,
            },
        },
    })
}
