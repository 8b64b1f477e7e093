// What a call gives: an answer and a second number.
#![tactic(auto)]

ghost use Rattle.std.specs.Prelude.{◌≡◌};
ghost use Rattle.replies.specs.Refused.{code, reply_of};

#[repr(C)]
#[derive(Clone, Copy)]
pub struct Reply {
    pub answer: u32,
    pub number: u32,
}

// Answer 0 is done, with a second number.
pub fn done(number: u32) -> Reply
    ensures { (result.answer ≡ 0) × (result.number ≡ number) }
{
    Reply { answer: 0, number }
}

// Answer 20 is blocked, with a second number.
pub fn blocked(number: u32) -> Reply
    ensures { (result.answer ≡ 20) × (result.number ≡ number) }
{
    Reply { answer: 20, number }
}

// Another answer, with second number 0: of a call that changes no byte.
pub fn unchanged(answer: u32) -> Reply
    ensures { (result.answer ≡ answer) × (result.number ≡ 0) }
{
    Reply { answer, number: 0 }
}

// Why a call is turned back. Each has the number of its answer.
#[derive(Clone, Copy, Debug, PartialEq, Eq)]
pub enum Refusal {
    UnsoundMemory = 1,
    EntryCount = 2,
    NoChange = 3,
    NoEntry = 4,
    NoSuchValue = 5,
    SameChange = 6,
    Status = 7,
    NoLock = 8,
    Returns = 9,
    NoPermit = 10,
    NoRoom = 11,
    WaitsElsewhere = 12,
    BrokenLine = 30,
}

impl From<Refusal> for u32 {
    ghost from_gives = { λ refusal answer. answer ≡ code refusal };

    fn from(refusal: Refusal) -> u32 {
        refusal as u32
    }
}

// What a call gives, as C sees it: a refusal with second number 0.
impl From<Result<Reply, Refusal>> for Reply {
    ghost from_gives = { λ outcome reply. reply ≡ reply_of outcome };

    fn from(outcome: Result<Reply, Refusal>) -> Reply {
        match outcome {
            Ok(reply) => reply,
            Err(refusal) => unchanged(u32::from(refusal)),
        }
    }
}
