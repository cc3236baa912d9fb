//! A bank is empty, or a participant put before a bank.
ghost use Rattle.std.specs.Prelude.{◌≡◌, ℕ, ◌+◌, ◌≤◌, List, [], ◌∷◌};
ghost use Rattle.std.proofs.Common.{rules};

use crate::bank::Bank;
use participants::answer::Answer;
use participants::participant::Participant;
use terms::{Entry, Key, Refusal};

/// The empty bank.
#[derive(Drop)]
pub struct NoParticipants;

/// A participant, with the index 1, and a bank whose indices follow.
#[derive(Drop)]
pub struct With<P: Participant, B: Bank> {
    pub first: P,
    pub rest: B,
}

impl Bank for NoParticipants {
    ghost parties = { λ _. [] };

    ghost writes = { λ _. 0 };

    ghost ceilings = { Prim.search rules };

    ghost orderly = { Prim.search rules };

    #[tactic(auto, unfolding(participants::specs::Party::do_answer))]
    fn perform(&mut self, _participant: u8, _entry: Entry) -> Answer {
        Err(Refusal::Unfit)
    }

    fn undo(&mut self, _participant: u8, _key: Key) -> bool {
        false
    }

    fn settle(&mut self, _participant: u8, _key: Key) -> bool {
        false
    }

    fn count(&self) -> u8 {
        0
    }

    fn value(&self, _participant: u8, _cell: u64) -> Option<u32> {
        None
    }

    fn stands(&self, _participant: u8, _key: Key) -> bool {
        false
    }
}

// Five matches on the index and no shared one: a form that takes a closure for each arm is as long, and needs a contract besides.
impl<P: Participant, B: Bank> Bank for With<P, B> {
    ghost parties = { λ w. P.Participant.means w.first ∷ B.Bank.parties w.rest };

    ghost writes = { λ w. P.Participant.writes w.first + B.Bank.writes w.rest };

    ghost ceilings = { Prim.search rules };

    ghost orderly = { Prim.search rules };

    fn perform(&mut self, participant: u8, entry: Entry) -> Answer {
        match participant {
            0 => Err(Refusal::Unfit),
            1 => self.first.perform(entry),
            _ => self.rest.perform(participant - 1, entry),
        }
    }

    fn undo(&mut self, participant: u8, key: Key) -> bool {
        match participant {
            0 => false,
            1 => self.first.undo(key),
            _ => self.rest.undo(participant - 1, key),
        }
    }

    fn settle(&mut self, participant: u8, key: Key) -> bool {
        match participant {
            0 => false,
            1 => self.first.settle(key),
            _ => self.rest.settle(participant - 1, key),
        }
    }

    fn count(&self) -> u8 {
        self.rest.count().saturating_add(1)
    }

    fn value(&self, participant: u8, cell: u64) -> Option<u32> {
        match participant {
            0 => None,
            1 => self.first.value(cell),
            _ => self.rest.value(participant - 1, cell),
        }
    }

    fn stands(&self, participant: u8, key: Key) -> bool {
        match participant {
            0 => false,
            1 => self.first.stands(key),
            _ => self.rest.stands(participant - 1, key),
        }
    }
}
