//! The participants of a site's bank.
ghost use Rattle.std.specs.Prelude.{◌≡◌, ◌⊎◌, ◌↔◌};
ghost use Rattle.terms.specs.Verbs.{verb_number};
ghost use Rattle.seqrun.specs.Kinds.{index_of};

use terms::Verb;

/// The participants, by their index in the bank.
#[derive(Clone, Copy, PartialEq, Eq, Debug)]
pub(crate) enum Kind {
    Stock = 1,
    Ledger = 2,
    Registry = 3,
}

impl Kind {
    // A method and no From: a number is not turned into a kind, it is sent to one.
    /// The participant that is asked for a verb; the registry refuses what is none.
    pub(crate) fn of(verb: u8) -> Kind
        ensures stock { (result ≡ Kind.Stock) ↔ ((verb ≡ verb_number Verb.Claim) ⊎ (verb ≡ verb_number Verb.Return)) }
        ensures ledger { (result ≡ Kind.Ledger) ↔ (verb ≡ verb_number Verb.Move) }
    {
        match Verb::try_from(verb) {
            Ok(Verb::Claim | Verb::Return) => Kind::Stock,
            Ok(Verb::Move) => Kind::Ledger,
            _ => Kind::Registry,
        }
    }
}

/// Its index in the bank.
impl From<Kind> for u8 {
    ghost from_gives = { λ kind r. r ≡ index_of kind };

    fn from(kind: Kind) -> u8 {
        kind as u8
    }
}
