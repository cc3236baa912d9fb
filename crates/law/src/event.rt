//! What a record says of its saga, and where a saga stands.
ghost use Rattle.std.specs.Prelude.{◌≡◌};
ghost use Rattle.law.specs.Events.{Says, IsKind, kind_number, record_of, record_of_nothing, no_request, only_step, plain_record, ReadsBack};

use record::Record;
use terms::{Refusal, Request};

/// A step as its intent issues it.
#[derive(Clone, Copy, PartialEq, Eq, Debug, Default)]
pub struct Step {
    pub number: u8,
    pub participant: u8,
    pub request: Request,
}

/// What a record says. Steps go by number.
#[derive(Clone, Copy, PartialEq, Eq, Debug)]
pub enum Event {
    Begin,
    Intent(Step),
    Done(u8),
    Refused(u8, Refusal),
    Mark,
    Join,
    /// To a depth.
    Back(u8),
    Undone(u8),
    Finish,
    Settled(u8),
}

/// A record that says nothing, or says what may not follow.
#[derive(Clone, Copy, PartialEq, Eq, Debug)]
pub struct Unlawful;

/// Why a step is pending.
#[derive(Clone, Copy, PartialEq, Eq, Debug)]
pub enum Aim {
    /// It is issued, and its participant has yet to answer.
    Stepping,
    /// It is to be undone on the way back to a target, the mark of a depth.
    Retreating(u8, u8),
    /// It is to be settled.
    Finishing,
}

/// Where a saga stands.
#[derive(Clone, Copy, PartialEq, Eq, Debug)]
pub enum Phase {
    Running,
    Pending(Aim, Step),
    Closed,
}

/// What became of the last step that was issued and answered: it is done, or refused.
pub type Outcome = Result<(), Refusal>;

// By fields, here and in only_step, and not by the record of the event: that would compare what was just read from it.
/// Whether the fields that only an intent uses are 0.
fn no_request(record: &Record) -> bool
    ensures { result ≡ no_request «record».now }
{
    record.participant == 0
        && record.verb == 0
        && record.amount == 0
        && record.a == 0
        && record.b == 0
}

/// Whether every field but the step is 0.
fn only_step(record: &Record) -> bool
    ensures { result ≡ only_step «record».now }
{
    record.depth == 0 && record.cause == 0 && no_request(record)
}

/// The kind of a record, by the number that it has there.
#[derive(Clone, Copy, PartialEq, Eq, Debug)]
enum Kind {
    Begin = 1,
    Intent = 2,
    Done = 3,
    Refused = 4,
    Mark = 5,
    Join = 6,
    Back = 7,
    Undone = 8,
    Finish = 9,
    Settled = 10,
}

impl TryFrom<u8> for Kind {
    type Error = Unlawful;

    ghost try_from_gives = { IsKind };

    fn try_from(number: u8) -> Result<Kind, Unlawful> {
        match number {
            1 => Ok(Kind::Begin),
            2 => Ok(Kind::Intent),
            3 => Ok(Kind::Done),
            4 => Ok(Kind::Refused),
            5 => Ok(Kind::Mark),
            6 => Ok(Kind::Join),
            7 => Ok(Kind::Back),
            8 => Ok(Kind::Undone),
            9 => Ok(Kind::Finish),
            10 => Ok(Kind::Settled),
            _ => Err(Unlawful),
        }
    }
}

/// The record of a kind that names at most a step.
fn plain(kind: Kind, saga: u32, step: u8) -> Record
    ensures { result ≡ plain_record (kind_number kind) saga step 0 0 }
{
    Record {
        kind: kind as u8,
        saga,
        step,
        ..Record::default()
    }
}

impl TryFrom<Record> for Event {
    type Error = Unlawful;

    ghost try_from_gives = { Says };

    fn try_from(record: Record) -> Result<Event, Unlawful> {
        let step = record.step;
        match Kind::try_from(record.kind)? {
            Kind::Begin if step == 0 && only_step(&record) => Ok(Event::Begin),
            Kind::Intent if record.depth == 0 && record.cause == 0 => Ok(Event::Intent(Step {
                number: step,
                participant: record.participant,
                request: Request {
                    verb: record.verb,
                    amount: record.amount,
                    a: record.a,
                    b: record.b,
                },
            })),
            Kind::Done if only_step(&record) => Ok(Event::Done(step)),
            Kind::Refused if record.depth == 0 && no_request(&record) => {
                let refusal = Refusal::try_from(record.cause).map_err(|_| Unlawful)?;
                Ok(Event::Refused(step, refusal))
            }
            Kind::Mark if step == 0 && only_step(&record) => Ok(Event::Mark),
            Kind::Join if step == 0 && only_step(&record) => Ok(Event::Join),
            Kind::Back if step == 0 && record.cause == 0 && no_request(&record) => {
                Ok(Event::Back(record.depth))
            }
            Kind::Undone if only_step(&record) => Ok(Event::Undone(step)),
            Kind::Finish if step == 0 && only_step(&record) => Ok(Event::Finish),
            Kind::Settled if only_step(&record) => Ok(Event::Settled(step)),
            _ => Err(Unlawful),
        }
    }
}

impl Event {
    /// The record that says it of a saga.
    #[tactic(auto, using(crate::proofs::Said::reads_back))]
    pub fn to_record(self, saga: u32) -> Record
        ensures value { result ≡ record_of saga self }
        ensures law { ReadsBack }
    {
        match self {
            Event::Begin => plain(Kind::Begin, saga, 0),
            Event::Intent(step) => Record {
                participant: step.participant,
                verb: step.request.verb,
                amount: step.request.amount,
                a: step.request.a,
                b: step.request.b,
                ..plain(Kind::Intent, saga, step.number)
            },
            Event::Done(step) => plain(Kind::Done, saga, step),
            Event::Refused(step, refusal) => Record {
                cause: u16::from(refusal),
                ..plain(Kind::Refused, saga, step)
            },
            Event::Mark => plain(Kind::Mark, saga, 0),
            Event::Join => plain(Kind::Join, saga, 0),
            Event::Back(depth) => Record {
                depth,
                ..plain(Kind::Back, saga, 0)
            },
            Event::Undone(step) => plain(Kind::Undone, saga, step),
            Event::Finish => plain(Kind::Finish, saga, 0),
            Event::Settled(step) => plain(Kind::Settled, saga, step),
        }
    }
}

impl Unlawful {
    /// The record that says nothing of a saga, by the kind 0, which no event has.
    #[tactic(auto, using(crate::proofs::Said::reads_back))]
    pub fn to_record(self, saga: u32) -> Record
        ensures value { result ≡ record_of_nothing saga }
        ensures law { ReadsBack }
    {
        Record {
            kind: 0,
            saga,
            ..Record::default()
        }
    }
}
