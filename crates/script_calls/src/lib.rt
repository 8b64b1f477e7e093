// The calls that a script asks for: their names, and the making of one with its fields.
#![tactic(auto)]

ghost use Rattle.std.specs.Prelude.{◌≡◌};
ghost use Rattle.replies.specs.Gives.{Gives};
ghost use Rattle.script_calls.specs.Fields.{call_with, reply_of, last_field};
ghost use Rattle.script_calls.specs.Meant.{number_of};

use replies::{Reply, unchanged};

// A call's name; its number is its place in "The calls".
#[derive(Clone, Copy, Debug, PartialEq, Eq)]
pub enum Name {
    Open = 1,
    Initiate = 2,
    Begin = 3,
    Complete = 4,
    Lock = 5,
    Read = 6,
    Write = 7,
    Permit = 8,
    Delegate = 9,
    Depend = 10,
    Commit = 11,
    Abort = 12,
    Status = 13,
    Parent = 14,
    Value = 15,
}

impl Name {
    // The call number.
    pub fn number(self) -> u32
        ensures { result ≡ number_of self }
    {
        self as u32
    }
}

// Where the last field stands that is not 0; 1 where it is the first, or none.
#[tactic(auto, unfolding(crate::specs::Fields::last_field))]
fn last_field(b: u32, c: u32, d: u32) -> u32
    ensures { result ≡ last_field b c d }
{
    match (b, c, d) {
        (0, 0, 0) => 1,
        (_, 0, 0) => 2,
        (_, _, 0) => 3,
        _ => 4,
    }
}

// The call of a call number with four fields, made; unused fields must be 0, or the line is broken.
// The decision is over the call number with one digit more, the last field in use: 51..=53 is call 5, which reads three fields.
// Its form is fixed (docs/DECISIONS.md, "Forms that are fixed"), and it takes any number, since 0 and those above 15 are no call.
#[tactic(auto, using(crate::proofs::MakeLaws::read_made))]
pub fn make(memory: &mut [u8], call: u32, fields: [u32; 4]) -> Reply
    ensures { Gives (reply_of memory.old (call_with call fields)) result memory.new }
{
    let [a, b, c, d] = fields;
    match u64::from(call) * 10 + u64::from(last_field(b, c, d)) {
        11 => calls::open(memory, a),
        21 => calls::initiate(memory, a),
        31 => calls::begin(memory, a),
        41 => calls::complete(memory, a),
        51..=53 => calls::lock(memory, a, b, c),
        61..=62 => calls::read(memory, a, b),
        71..=73 => calls::write(memory, a, b, c),
        81..=84 => calls::permit(memory, a, b, c, d),
        91..=93 => calls::delegate(memory, a, b, c),
        101..=103 => calls::depend(memory, a, b, c),
        111 => calls::commit(memory, a),
        121 => calls::abort(memory, a),
        131 => calls::status(memory, a),
        141 => calls::parent(memory, a),
        151 => calls::value(memory, a),
        _ => unchanged(30),
    }
}
