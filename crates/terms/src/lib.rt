//! What every layer speaks of: a step's key and request, and why a participant refuses a step.
#![tactic(auto)]

ghost use Rattle.std.specs.Prelude.{◌≡◌, ok_or};
ghost use Rattle.terms.specs.Codes.{refusal_code, refusal_read, CodesNameRefusals};
ghost use Rattle.terms.specs.Verbs.{verb_number, verb_read, NumbersNameVerbs};

/// The verbs that a participant may have.
#[derive(Clone, Copy, PartialEq, Eq, Debug)]
pub enum Verb {
    /// 1: takes an amount of a cell.
    Claim,
    /// 2: gives an amount to a cell.
    Return,
    /// 3: gives an amount to one cell and takes it of another.
    Move,
    /// 4: takes 1 of a cell.
    Hang,
    /// 5: gives 1 to a cell.
    Lift,
}

/// A number that no verb has.
#[derive(Clone, Copy, PartialEq, Eq, Debug)]
pub struct UnknownVerb(pub u8);

/// The number that a request has for the verb.
impl From<Verb> for u8 {
    ghost from_gives = { λ verb r. r ≡ verb_number verb };

    fn from(verb: Verb) -> u8 {
        match verb {
            Verb::Claim => 1,
            Verb::Return => 2,
            Verb::Move => 3,
            Verb::Hang => 4,
            Verb::Lift => 5,
        }
    }
}

/// The verb of a number.
impl TryFrom<u8> for Verb {
    type Error = UnknownVerb;

    ghost try_from_gives = { λ number r. r ≡ verb_read number };

    fn try_from(number: u8) -> Result<Verb, UnknownVerb>
        ensures value { result ≡ verb_read number }
        ensures law { NumbersNameVerbs }
    {
        match number {
            1 => Ok(Verb::Claim),
            2 => Ok(Verb::Return),
            3 => Ok(Verb::Move),
            4 => Ok(Verb::Hang),
            5 => Ok(Verb::Lift),
            _ => Err(UnknownVerb(number)),
        }
    }
}

/// A group or a feeder as a site lists it.
#[derive(Clone, Copy, PartialEq, Eq, Debug, Default)]
pub struct Level {
    pub value: u32,
    pub ceiling: u32,
}

/// A tag as a site lists it: its name is the number that its bytes are, the first byte highest, with zero bytes up to eight.
#[derive(Clone, Copy, PartialEq, Eq, Debug, Default)]
pub struct Tag {
    // A number and no text: as a record and a cell hold it.
    pub name: u64,
    pub value: u32,
}

/// The step of a saga.
#[derive(Clone, Copy, PartialEq, Eq, Debug, Default)]
pub struct Key {
    pub saga: u32,
    pub step: u8,
}

/// What a step asks: a verb, an amount and up to two cells by number.
#[derive(Clone, Copy, PartialEq, Eq, Debug, Default)]
pub struct Request {
    // A number and no Verb: a request may hold any and is then refused, where a Verb would ask for one of the five.
    pub verb: u8,
    pub amount: u32,
    pub a: u64,
    // 0 and no None where there is no second cell: as a record holds it, and any other number is refused.
    pub b: u64,
}

/// A request under its key.
#[derive(Clone, Copy, PartialEq, Eq, Debug, Default)]
pub struct Entry {
    pub key: Key,
    pub request: Request,
}

/// Why a participant refuses a step.
#[derive(Clone, Copy, PartialEq, Eq, Debug)]
pub enum Refusal {
    /// 40: a verb or a cell that the participant lacks, or an amount or a second cell that does not fit the verb.
    Unfit,
    /// 41: the key stands with another request.
    OtherRequest,
    /// 42: 64 entries stand.
    Full,
    /// 43: a value is below the take.
    Short,
    /// 44: a value could pass its ceiling.
    Above,
}

/// A number that no refusal has.
#[derive(Clone, Copy, PartialEq, Eq, Debug)]
pub struct UnknownRefusal(pub u16);

/// The number that journals and reports have for it.
impl From<Refusal> for u16 {
    ghost from_gives = { λ refusal r. r ≡ refusal_code refusal };

    fn from(refusal: Refusal) -> u16 {
        match refusal {
            Refusal::Unfit => 40,
            Refusal::OtherRequest => 41,
            Refusal::Full => 42,
            Refusal::Short => 43,
            Refusal::Above => 44,
        }
    }
}

/// The refusal of a number.
impl TryFrom<u16> for Refusal {
    type Error = UnknownRefusal;

    ghost try_from_gives = { λ code r. r ≡ refusal_read code };

    fn try_from(code: u16) -> Result<Refusal, UnknownRefusal>
        ensures value { result ≡ refusal_read code }
        ensures law { CodesNameRefusals }
    {
        match code {
            40 => Ok(Refusal::Unfit),
            41 => Ok(Refusal::OtherRequest),
            42 => Ok(Refusal::Full),
            43 => Ok(Refusal::Short),
            44 => Ok(Refusal::Above),
            _ => Err(UnknownRefusal(code)),
        }
    }
}

#[cfg(test)]
mod tests {
    use super::*;
    use std::test::Fail;

    #[test]
    fn each_refusal_has_a_number(rt: HostRuntime) -> Result<(), Fail> {
        for code in 40..45u16 {
            let Ok(refusal) = Refusal::try_from(code) else {
                return Err(Fail::new("a number without a refusal"));
            };
            assert_eq!(rt; u16::from(refusal), code);
        }
        assert_eq!(rt; Refusal::try_from(39), Err(UnknownRefusal(39)));
        assert_eq!(rt; Refusal::try_from(45), Err(UnknownRefusal(45)));
        Ok(())
    }
}
