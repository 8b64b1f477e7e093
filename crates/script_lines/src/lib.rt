// A script's lines: which call a line asks for, and its reply.
#![tactic(auto)]

ghost use Rattle.std.specs.Prelude.{◌≡◌};
ghost use Rattle.replies.specs.Gives.{Gives};
ghost use Rattle.text.specs.Decimal.{number as number_of};
ghost use Rattle.script_lines.specs.Lines.{call_number, numbered, line_call, reply_to};
ghost use Rattle.script_lines.specs.Texts.{text_of, number_if, asked};

use replies::{Reply, unchanged};
use script_calls::{Name, make};
use text::{number, same};

// The names of the calls, in the order of "The calls".
const NAMES: [Name; 15] = [
    Name::Open,
    Name::Initiate,
    Name::Begin,
    Name::Complete,
    Name::Lock,
    Name::Read,
    Name::Write,
    Name::Permit,
    Name::Delegate,
    Name::Depend,
    Name::Commit,
    Name::Abort,
    Name::Status,
    Name::Parent,
    Name::Value,
];

// What a name is in a script.
#[tactic(auto, unfolding(text::specs::Decimal::ascii))]
fn text_of(name: Name) -> &'static [u8]
    ensures { result.now ≡ text_of name }
{
    match name {
        Name::Open => b"open",
        Name::Initiate => b"initiate",
        Name::Begin => b"begin",
        Name::Complete => b"complete",
        Name::Lock => b"lock",
        Name::Read => b"read",
        Name::Write => b"write",
        Name::Permit => b"permit",
        Name::Delegate => b"delegate",
        Name::Depend => b"depend",
        Name::Commit => b"commit",
        Name::Abort => b"abort",
        Name::Status => b"status",
        Name::Parent => b"parent",
        Name::Value => b"value",
    }
}

// The name that a text is, if it is one.
fn name_of(text: &[u8]) -> Option<Name>
    ensures { number_if result ≡ call_number text.now }
{
    for name in NAMES {
        if same(text, text_of(name)) {
            return Some(name);
        }
    }
    None
}

// A name and four numbers that are given as text; None where the first is no name or another no number.
#[tactic(auto, using(crate::proofs::LineLaws::no_name), unfolding(crate::specs::Lines::numbered, script_calls::specs::Fields::call_with))]
fn read_fields(name: &[u8], a: &[u8], b: &[u8], c: &[u8], d: &[u8]) -> Option<(Name, [u32; 4])>
    ensures { asked result ≡ numbered (call_number name.now) (number_of a.now) (number_of b.now) (number_of c.now) (number_of d.now) }
{
    Some((
        name_of(name)?,
        [number(a)?, number(b)?, number(c)?, number(d)?],
    ))
}

// The name and the fields of the call that a line asks for; None where it is no name and four numbers.
fn read_call(line: &[u8]) -> Option<(Name, [u32; 4])>
    ensures { asked result ≡ line_call line.now }
{
    let long = line.len() > 64;
    if long {
        return None;
    }
    let mut parts = line.split(|b| *b == b',');
    let (Some(name), Some(a), Some(b), Some(c), Some(d)) = (
        parts.next(),
        parts.next(),
        parts.next(),
        parts.next(),
        parts.next(),
    ) else {
        return None;
    };
    let more = parts.next().is_some();
    if more {
        return None;
    }
    read_fields(name, a, b, c, d)
}

// The reply to a line, whose call is made on the memory.
#[tactic(auto, unfolding(crate::specs::Lines::reply_to, script_calls::specs::Fields::reply_of))]
pub fn answer(memory: &mut [u8], line: &[u8]) -> Reply
    ensures { Gives (reply_to memory.old line.now) result memory.new }
{
    match read_call(line) {
        Some(call) => {
            let (name, fields) = call;
            make(memory, name.number(), fields)
        }
        None => unchanged(30),
    }
}
