// What the calls answer: a verdict with its count of states, or a refusal with its place.
#![tactic(auto)]

ghost use Rattle.std.specs.Prelude.{◌≡◌};
ghost use Rattle.answers.specs.Paper.{number_of, verdict_for, kind_number, refused_at};

// What is known of the runs that agree with the events: the rule is kept by some and broken by others, kept by all, broken by all, or there is none.
#[derive(Clone, Copy, Debug, PartialEq, Eq)]
pub enum Verdict {
    Inconclusive,
    True,
    False,
    OutOfModel,
}

impl Verdict {
    pub const INCONCLUSIVE: u8 = 0;

    pub const TRUE: u8 = 1;

    pub const FALSE: u8 = 2;

    pub const OUT_OF_MODEL: u8 = 3;

    // By which of the two sets are occupied.
    pub fn of(keeps: bool, breaks: bool) -> Self
        ensures { result ≡ verdict_for keeps breaks }
    {
        if keeps {
            if breaks {
                Verdict::Inconclusive
            } else {
                Verdict::True
            }
        } else {
            if breaks {
                Verdict::False
            } else {
                Verdict::OutOfModel
            }
        }
    }

    pub fn number(self) -> u8
        ensures { result ≡ number_of self }
    {
        match self {
            Verdict::Inconclusive => Verdict::INCONCLUSIVE,
            Verdict::True => Verdict::TRUE,
            Verdict::False => Verdict::FALSE,
            Verdict::OutOfModel => Verdict::OUT_OF_MODEL,
        }
    }
}

// What the lamp shows: the verdict, and in how many table states the plant can now be.
#[derive(Clone, Copy, Debug, PartialEq, Eq)]
pub struct Lamp {
    pub verdict: Verdict,
    pub left: usize,
}

// Why a call is refused.
#[derive(Clone, Copy, Debug, PartialEq, Eq)]
pub enum Kind {
    Counts,
    Bits,
    TableText,
    RuleLength,
    RuleText,
    Proposition,
    Nodes,
    Parts,
    Value,
    IllegalEvent,
    Room,
    LogText,
    NoPair,
    File,
    Rows,
    Number,
    NoKey,
    SheetText,
    NotNewer,
    NotHeld,
    ClosingEdition,
    RunLength,
    Stretches,
    LogLength,
}

impl Kind {
    pub const COUNTS: u8 = 1;

    pub const BITS: u8 = 2;

    pub const TABLE_TEXT: u8 = 3;

    pub const RULE_LENGTH: u8 = 4;

    pub const RULE_TEXT: u8 = 5;

    pub const PROPOSITION: u8 = 6;

    pub const NODES: u8 = 7;

    pub const PARTS: u8 = 8;

    pub const VALUE: u8 = 9;

    pub const ILLEGAL_EVENT: u8 = 10;

    pub const ROOM: u8 = 11;

    pub const LOG_TEXT: u8 = 12;

    pub const NO_PAIR: u8 = 13;

    pub const FILE: u8 = 14;

    pub const ROWS: u8 = 15;

    pub const NUMBER: u8 = 16;

    pub const NO_KEY: u8 = 17;

    pub const SHEET_TEXT: u8 = 18;

    pub const NOT_NEWER: u8 = 19;

    pub const NOT_HELD: u8 = 20;

    pub const CLOSING_EDITION: u8 = 21;

    pub const RUN_LENGTH: u8 = 22;

    pub const STRETCHES: u8 = 23;

    pub const LOG_LENGTH: u8 = 24;

    pub fn number(self) -> u8
        ensures { result ≡ kind_number self }
    {
        match self {
            Kind::Counts => Kind::COUNTS,
            Kind::Bits => Kind::BITS,
            Kind::TableText => Kind::TABLE_TEXT,
            Kind::RuleLength => Kind::RULE_LENGTH,
            Kind::RuleText => Kind::RULE_TEXT,
            Kind::Proposition => Kind::PROPOSITION,
            Kind::Nodes => Kind::NODES,
            Kind::Parts => Kind::PARTS,
            Kind::Value => Kind::VALUE,
            Kind::IllegalEvent => Kind::ILLEGAL_EVENT,
            Kind::Room => Kind::ROOM,
            Kind::LogText => Kind::LOG_TEXT,
            Kind::NoPair => Kind::NO_PAIR,
            Kind::File => Kind::FILE,
            Kind::Rows => Kind::ROWS,
            Kind::Number => Kind::NUMBER,
            Kind::NoKey => Kind::NO_KEY,
            Kind::SheetText => Kind::SHEET_TEXT,
            Kind::NotNewer => Kind::NOT_NEWER,
            Kind::NotHeld => Kind::NOT_HELD,
            Kind::ClosingEdition => Kind::CLOSING_EDITION,
            Kind::RunLength => Kind::RUN_LENGTH,
            Kind::Stretches => Kind::STRETCHES,
            Kind::LogLength => Kind::LOG_LENGTH,
        }
    }
}

// Why a call is refused, and at which byte: 0 where the reason has no place in a text.
#[derive(Clone, Copy, Debug, PartialEq, Eq)]
pub struct Refusal {
    pub kind: Kind,
    pub place: usize,
}

impl Refusal {
    pub fn at(kind: Kind, place: usize) -> Self
        ensures { result ≡ refused_at kind place }
    {
        Refusal { kind, place }
    }
}

// The answer of a call that shows the lamp.
pub type Answer = Result<Lamp, Refusal>;
