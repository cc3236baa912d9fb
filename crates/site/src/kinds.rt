//! The three participants of a site, each a book of its own size and verbs.
ghost use Rattle.std.specs.Prelude.{◌≡◌, ◌≤◌, map, length};
ghost use Rattle.bounded.specs.Held.{held};
ghost use Rattle.terms.specs.Verbs.{verb_number};
ghost use Rattle.participants.specs.Books.{opened_as};
ghost use Rattle.site.specs.Listing.{listed};
ghost use Rattle.site.specs.Opening.{opened, open_stock, open_ledger, open_registry};

use crate::listing::{Listed, cells_of};
use bounded::Bounded;
use participants::answer::SiteFault;
use participants::book::Book;
use terms::{Level, Tag, Verb};

/// Output groups, at most 16, numbered from 1: claim and return.
pub type Stock = Book<16>;

/// Feeders, at most 32, numbered from 1; the value is the headroom in amperes, the ceiling the rating: move.
pub type Ledger = Book<32>;

/// At most 64 tags by name, of the ceiling 1 and of the value 0 while they hang: hang and lift.
pub type Registry = Book<64>;

// The numbers of up to two verbs.
fn numbers_of(verbs: &[Verb]) -> Bounded<u8, 2>
    requires { length verbs.now ≤ 2 }
    ensures { held result ≡ map verb_number verbs.now }
{
    let mut numbers = Bounded::new(0);
    for verb in verbs {
        let _ = numbers.push(u8::from(*verb));
    }
    numbers
}

// A participant of up to two verbs on what a site lists, with nothing standing.
fn open_kind<L: Listed, const C: usize>(verbs: &[Verb], list: &[L]) -> Result<Book<C>, SiteFault>
    requires { length verbs.now ≤ 2 }
    ensures { opened_as result ≡ opened (map verb_number verbs.now) (listed C L.Listed.cell list.now) }
{
    Book::open(numbers_of(verbs), cells_of(list)?)
}

/// The groups that a site lists, with nothing standing.
pub fn open_stock(groups: &[Level]) -> Result<Stock, SiteFault>
    ensures { opened_as result ≡ open_stock groups.now }
{
    open_kind(&[Verb::Claim, Verb::Return], groups)
}

/// The feeders that a site lists, with nothing standing.
pub fn open_ledger(feeders: &[Level]) -> Result<Ledger, SiteFault>
    ensures { opened_as result ≡ open_ledger feeders.now }
{
    open_kind(&[Verb::Move], feeders)
}

/// The tags that a site lists, with nothing standing.
pub fn open_registry(tags: &[Tag]) -> Result<Registry, SiteFault>
    ensures { opened_as result ≡ open_registry tags.now }
{
    open_kind(&[Verb::Hang, Verb::Lift], tags)
}
