// The listing: what the script program prints, made while its input is fed in pieces.
#![tactic(auto)]

ghost use Rattle.std.specs.Prelude.{◌≡◌, ℕ, ◌+◌, ◌*◌, ◌^◌, ◌≤◌, ◌<◌, List, [], ◌++◌, length, take};
ghost use Rattle.listing.specs.Listing.{printed, zero_memory};
ghost use Rattle.listing.specs.Feed.{start as started, line_ended, fed_byte, fed, ended};
ghost use Rattle.listing.specs.Stands.{place_of, standing};

use arrayvec::ArrayVec;
use replies::{Reply, unchanged};
use script_lines::answer;
use text::{same, show};

// How many bytes of a line are kept: of one above 64 bytes, enough to tell that it is.
pub const KEPT: usize = 65;

// Which line has begun: the first one, a later one, with the number of later lines before it, or one that plays no part, since the first was broken,
// with its place.
#[derive(Clone, Copy, Debug, PartialEq, Eq)]
pub enum Stage {
    First,
    Later(u64),
    Over(u64),
}

// Where a listing stands: how many bytes of the line begun are kept, which line it is, and how many bytes wait to be written. They are kept
// in lent bytes, as the memory of the calls is, so that a caller has room as it likes (docs/DECISIONS.md).
#[derive(Clone, Copy, Debug, PartialEq, Eq)]
pub struct Stand {
    pub held: usize,
    pub stage: Stage,
    pub used: usize,
}

// A line to print.
fn print_line(text: &mut ArrayVec<u8, 64>, place: u64, reply: Reply)
    requires { text.old.items ≡ [] }
    ensures { text.new.items ≡ printed place reply.answer reply.number }
{
    show(place, text);
    text.push(b',');
    show(u64::from(reply.answer), text);
    text.push(b',');
    show(u64::from(reply.number), text);
    text.push(b'\n');
}

// A line printed after the bytes that wait. What comes back is how many wait now.
fn put_line(out: &mut [u8], used: usize, place: u64, reply: Reply) -> usize
    requires { used + 64 ≤ length out.old }
    ensures upper_bound { result ≤ used + 64 }
    ensures out_after { take result out.new ≡ take used out.old ++ printed place reply.answer reply.number }
{
    let mut text = ArrayVec::<u8, 64>::new();
    print_line(&mut text, place, reply);
    let end = used + text.len();
    out[used..end].copy_from_slice(&text);
    end
}

impl Stand {
    // The header waits to be written; nothing has been read.
    pub fn start(out: &mut [u8]) -> Self
        requires { 19 ≤ length out.old }
        ensures held_bound { result.held ≤ 65 }
        ensures used_bound { result.used ≤ 19 }
        ensures place_value { place_of result.stage ≡ 0 }
        ensures by_index { (line : List ℕ) → standing result line zero_memory out.new ≡ started }
    {
        out[..19].copy_from_slice(b"line,answer,number\n");
        Stand {
            held: 0,
            stage: Stage::First,
            used: 19,
        }
    }

    // The first line is whole.
    fn end_first(&mut self, line: &[u8], out: &mut [u8])
        requires stage { self.old.stage ≡ Stage.First }
        requires held_in_bounds { self.old.held ≤ length line.now }
        requires used_in_bounds { self.old.used + 64 ≤ length out.old }
        ensures held_value { self.new.held ≡ 0 }
        ensures used_bound { self.new.used ≤ self.old.used + 64 }
        ensures by_index { (m : List ℕ) → standing self.new line.now m out.new ≡ line_ended (standing self.old line.now m out.old) }
    {
        let right = same(&line[..self.held], b"call,a,b,c,d");
        self.held = 0;
        if right {
            self.stage = Stage::Later(0);
        } else {
            self.used = put_line(out, self.used, 0, unchanged(30));
            self.stage = Stage::Over(0);
        }
    }

    // A later line is whole, with so many before it.
    fn end_later(&mut self, before: u64, line: &[u8], memory: &mut [u8], out: &mut [u8])
        requires stage { self.old.stage ≡ Stage.Later before }
        requires held_in_bounds { self.old.held ≤ length line.now }
        requires used_in_bounds { self.old.used + 64 ≤ length out.old }
        requires place_bound { before + 2 < 2 ^ 64 }
        ensures held_value { self.new.held ≡ 0 }
        ensures used_bound { self.new.used ≤ self.old.used + 64 }
        ensures out_after { standing self.new line.now memory.new out.new ≡ line_ended (standing self.old line.now memory.old out.old) }
    {
        let place = before + 1;
        let reply = answer(memory, &line[..self.held]);
        self.held = 0;
        self.used = put_line(out, self.used, place, reply);
        self.stage = Stage::Later(place);
    }

    // A line is whole; after a broken first line there is nothing more to do.
    fn end_line(&mut self, line: &[u8], memory: &mut [u8], out: &mut [u8])
        requires held_in_bounds { self.old.held ≤ length line.now }
        requires used_in_bounds { self.old.used + 64 ≤ length out.old }
        requires place_bound { place_of self.old.stage + 1 < 2 ^ 64 }
        ensures held_le_held { self.new.held ≤ self.old.held }
        ensures used_bound { self.new.used ≤ self.old.used + 64 }
        ensures out_after { standing self.new line.now memory.new out.new ≡ line_ended (standing self.old line.now memory.old out.old) }
    {
        match self.stage {
            Stage::First => self.end_first(line, out),
            Stage::Later(before) => self.end_later(before, line, memory, out),
            Stage::Over(_) => {}
        }
    }

    // One byte more.
    fn feed_byte(&mut self, byte: u8, line: &mut [u8], memory: &mut [u8], out: &mut [u8])
        requires line_len { length line.old ≡ 65 }
        requires held_bound { self.old.held ≤ 65 }
        requires used_in_bounds { self.old.used + 64 ≤ length out.old }
        requires place_bound { place_of self.old.stage + 1 < 2 ^ 64 }
        ensures held_bound_2 { self.new.held ≤ 65 }
        ensures used_bound { self.new.used ≤ self.old.used + 64 }
        ensures out_after { standing self.new line.new memory.new out.new ≡ fed_byte (standing self.old line.old memory.old out.old) byte }
    {
        if byte == b'\n' {
            self.end_line(line, memory, out);
        } else if self.held < KEPT {
            line[self.held] = byte;
            self.held += 1;
        }
    }

    // A piece of the input.
    pub fn feed(&mut self, input: &[u8], line: &mut [u8], memory: &mut [u8], out: &mut [u8])
        requires line_len { length line.old ≡ 65 }
        requires held_bound { self.old.held ≤ 65 }
        requires input_in_bounds { self.old.used + 64 * length input.now ≤ length out.old }
        requires input_bound { place_of self.old.stage + length input.now < 2 ^ 64 }
        ensures held_bound_2 { self.new.held ≤ 65 }
        ensures used_bound { self.new.used ≤ self.old.used + 64 * length input.now }
        ensures place_bound { place_of self.new.stage ≤ place_of self.old.stage + length input.now }
        ensures out_after { standing self.new line.new memory.new out.new ≡ fed (standing self.old line.old memory.old out.old) input.now }
    {
        for &byte in input {
            self.feed_byte(byte, line, memory, out);
        }
    }

    // The input is at its end: a line begun is whole too.
    pub fn finish(&mut self, line: &[u8], memory: &mut [u8], out: &mut [u8])
        requires line_len { length line.now ≡ 65 }
        requires held_bound { self.old.held ≤ 65 }
        requires used_in_bounds { self.old.used + 64 ≤ length out.old }
        requires place_bound { place_of self.old.stage + 1 < 2 ^ 64 }
        ensures used_bound { self.new.used ≤ self.old.used + 64 }
        ensures out_after { standing self.new line.now memory.new out.new ≡ ended (standing self.old line.now memory.old out.old) }
    {
        let nothing = self.held == 0;
        if !nothing {
            self.end_line(line, memory, out);
        }
    }
}
