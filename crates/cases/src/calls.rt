//! The bank of the example site, by real calls.
ghost use Rattle.std.specs.Prelude.{◌≡◌};
ghost use Rattle.cases.specs.Asked.{asked};

use terms::{Entry, Key, Request};

// A number for the verb, as a request has it.
/// The step of a saga that asks for a verb, an amount and a cell.
pub fn ask(saga: u32, step: u8, verb: u8, amount: u32, cell: u64) -> Entry
    ensures { result ≡ asked saga step verb amount cell }
{
    Entry {
        key: Key { saga, step },
        request: Request {
            verb,
            amount,
            a: cell,
            b: 0,
        },
    }
}

#[cfg(test)]
mod tests {
    use super::*;
    use bank::bank::Bank;
    use participants::answer::{Accepted, Answer};
    use participants::participant::Participant;
    use site::example;
    use site::example::T7;
    use site::site_bank::SiteBank;
    use std::test::Fail;
    use terms::Verb;

    fn asks(saga: u32, step: u8, verb: Verb, amount: u32, cell: u64) -> Entry {
        ask(saga, step, u8::from(verb), amount, cell)
    }

    // A refusal is compared by its number.
    fn told(answer: Answer) -> Result<Accepted, u16> {
        answer.map_err(|refusal| u16::from(refusal))
    }

    const DONE: Result<Accepted, u16> = Ok(Accepted::Done);

    const ALREADY: Result<Accepted, u16> = Ok(Accepted::Already);

    fn site() -> Result<SiteBank, Fail> {
        example::site().map_err(|_| Fail::new("no site"))
    }

    #[test]
    fn claims_and_returns(rt: HostRuntime) -> Result<(), Fail> {
        let mut bank = site()?;
        assert_eq!(rt;
            told(bank.perform(1, asks(5, 1, Verb::Claim, 4, 1))),
            Err(43)
        );
        assert_eq!(rt;
            told(bank.perform(1, asks(5, 1, Verb::Return, 2, 1))),
            Err(44)
        );
        assert_eq!(rt; told(bank.perform(1, asks(5, 1, Verb::Claim, 3, 1))), DONE);
        assert_eq!(rt; bank.value(1, 1), Some(0));
        assert_eq!(rt;
            told(bank.perform(1, asks(5, 1, Verb::Claim, 3, 1))),
            ALREADY
        );
        assert_eq!(rt;
            told(bank.perform(1, asks(5, 1, Verb::Claim, 2, 1))),
            Err(41)
        );
        assert_eq!(rt;
            told(bank.perform(1, asks(6, 1, Verb::Return, 2, 1))),
            Err(44)
        );
        assert_eq!(rt; told(bank.perform(1, asks(6, 1, Verb::Return, 1, 1))), DONE);
        Ok(())
    }

    #[test]
    fn undone_once(rt: HostRuntime) -> Result<(), Fail> {
        let mut bank = site()?;
        let key = Key { saga: 5, step: 1 };
        assert_eq!(rt; told(bank.perform(1, asks(5, 1, Verb::Claim, 3, 1))), DONE);
        assert_eq!(rt; bank.undo(1, key), true);
        assert_eq!(rt; bank.undo(1, key), false);
        assert_eq!(rt; bank.value(1, 1), Some(3));
        Ok(())
    }

    #[test]
    fn settled_once(rt: HostRuntime) -> Result<(), Fail> {
        let mut bank = site()?;
        let key = Key { saga: 5, step: 1 };
        assert_eq!(rt; told(bank.perform(1, asks(5, 1, Verb::Return, 1, 1))), DONE);
        assert_eq!(rt; bank.value(1, 1), Some(3));
        assert_eq!(rt; bank.settle(1, key), true);
        assert_eq!(rt; bank.settle(1, key), false);
        assert_eq!(rt; bank.value(1, 1), Some(4));
        Ok(())
    }

    #[test]
    fn a_tag_hangs_once(rt: HostRuntime) -> Result<(), Fail> {
        let mut bank = site()?;
        assert_eq!(rt; told(bank.perform(3, asks(5, 1, Verb::Hang, 1, T7))), DONE);
        assert_eq!(rt;
            told(bank.perform(3, asks(5, 2, Verb::Lift, 1, T7))),
            Err(44)
        );
        assert_eq!(rt;
            told(bank.perform(3, asks(6, 1, Verb::Hang, 1, T7))),
            Err(43)
        );
        assert_eq!(rt;
            told(bank.perform(4, asks(6, 1, Verb::Hang, 1, T7))),
            Err(40)
        );
        assert_eq!(rt; bank.stands(3, Key { saga: 5, step: 1 }), true);
        Ok(())
    }
}
