// The sixteen bytes in which a command is answered.
ghost use Rattle.std.specs.Prelude.{◌≡◌};
ghost use Rattle.host.specs.Replies.{blank, key_number, laid, mark_number, named, refusal_report, refused_report, reply_report, report_of};

use crate::refusal::Refusal;
use crate::reply::Reply;
use order::keys::RuleNumber;

// The kinds of reports, each under its number.
#[derive(Clone, Copy, Debug, PartialEq, Eq)]
pub enum Mark {
    Done = 0,
    Number = 1,
    Named = 2,
    Nothing = 3,
    Linked = 4,
    Refused = 5,
    Unknown = 6,
    CutOff = 7,
}

// The fields of a report; those that a mark does not use are 0. The C interface needs each at its width: a mark is a byte, and so is a flag.
#[derive(Clone, Copy)]
pub struct Report {
    pub mark: u8,
    pub refusal: u8,
    pub ahead: u8,
    pub back: u8,
    pub key: u16,
    pub behind: u16,
    pub number: u32,
    pub count: u32,
}

// A report with a mark and nothing else.
fn marked(mark: Mark) -> Report
    ensures { result ≡ blank (mark_number mark) }
{
    Report {
        mark: mark as u8,
        refusal: 0,
        ahead: 0,
        back: 0,
        key: 0,
        behind: 0,
        number: 0,
        count: 0,
    }
}

// A report of a refusal by its number, whoever gives it.
pub fn refused(number: u8) -> Report
    ensures { result ≡ refused_report number }
{
    Report {
        refusal: number,
        ..marked(Mark::Refused)
    }
}

// 1 for a key, 0 for none: the C interface has a byte for it.
fn names(key: Option<RuleNumber>) -> u8
    ensures { result ≡ named key }
{
    u8::from(key.is_some())
}

// A key's number, 0 for none, as the C interface has it.
fn number_of(key: Option<RuleNumber>) -> u16
    ensures { result ≡ key_number key }
{
    key.map_or(0, |key| key.value)
}

impl From<Reply> for Report {
    ghost from_gives = { λ reply r. r ≡ reply_report reply };

    fn from(reply: Reply) -> Report {
        match reply {
            Reply::Done => marked(Mark::Done),
            Reply::Number(number) => Report {
                number,
                ..marked(Mark::Number)
            },
            Reply::Named(key) => Report {
                key: key.value,
                ..marked(Mark::Named)
            },
            Reply::Nothing => marked(Mark::Nothing),
            Reply::Linked(links) => Report {
                ahead: names(links.ahead.key),
                back: names(links.back.key),
                key: number_of(links.ahead.key),
                behind: number_of(links.back.key),
                number: u32::from(links.ahead.count),
                count: u32::from(links.back.count),
                ..marked(Mark::Linked)
            },
        }
    }
}

impl From<Refusal> for Report {
    ghost from_gives = { λ refusal r. r ≡ refusal_report refusal };

    fn from(refusal: Refusal) -> Report {
        match refusal {
            Refusal::Set(fault) => refused(fault.number()),
            Refusal::List(fault) => refused(fault.number()),
            Refusal::Unknown => marked(Mark::Unknown),
            Refusal::CutOff => marked(Mark::CutOff),
        }
    }
}

impl From<Result<Reply, Refusal>> for Report {
    ghost from_gives = { λ told r. r ≡ report_of told };

    fn from(told: Result<Reply, Refusal>) -> Report {
        match told {
            Ok(reply) => reply.into(),
            Err(refusal) => refusal.into(),
        }
    }
}

impl Report {
    // Its bytes, of each number the low one first.
    pub fn bytes(&self) -> [u8; 16]
        ensures { result ≡ laid self.now }
    {
        let [key0, key1] = self.key.to_le_bytes();
        let [behind0, behind1] = self.behind.to_le_bytes();
        let [number0, number1, number2, number3] = self.number.to_le_bytes();
        let [count0, count1, count2, count3] = self.count.to_le_bytes();
        [
            self.mark,
            self.refusal,
            self.ahead,
            self.back,
            key0,
            key1,
            behind0,
            behind1,
            number0,
            number1,
            number2,
            number3,
            count0,
            count1,
            count2,
            count3,
        ]
    }
}
