// The ties of a section: which are arrows, what a pass over them adds to a set whose four words are lent, and what one notes in rows.
// Rows have four words for each number: the numbers to which a tie is gone along from it.
#![tactic(auto)]

ghost use Rattle.std.specs.Prelude.{◌≡◌, ◌||◌, ◌&&◌, ℕ, ◌*◌, ◌/◌, ◌<◌, ◌≤◌, eqb, length};
ghost use Rattle.rules.specs.Ties.{is_arrow, is_group};
ghost use Rattle.layout.specs.Records.{tie_of, tie_at};
ghost use Rattle.words.specs.Members.{words_have};
ghost use Rattle.passes.specs.Passes.{follows, place_from, tie_from, pulled, passed};
ghost use Rattle.passes.specs.TieRows.{gone_along, gone_in, row_has};

use layout::Ties;
use words::{among, insert};

// The kinds of ties, as a tie's first byte says them.
const WAIT: u8 = 1;

const FALL: u8 = 2;

const GROUP: u8 = 3;

// Whether a tie of that kind is an arrow.
pub fn is_arrow(kind: u8) -> bool
    ensures { result ≡ is_arrow kind }
{
    (kind == WAIT) | (kind == FALL)
}

// A tie, as its bytes say it.
#[derive(Clone, Copy)]
struct Tie {
    kind: u8,
    leader: u8,
    follower: u8,
}

impl Tie {
    // The tie at a place of the section.
    fn at(ties: &[u8], place: usize) -> Tie
        requires { place < length ties.now / 4 }
        ensures { tie_of result.kind result.leader result.follower ≡ tie_at ties.now place }
    {
        let at = place * Ties::RECORD;
        Tie {
            kind: ties[at],
            leader: ties[at + 1],
            follower: ties[at + 2],
        }
    }

    // Whether it is gone along from leader to follower, where `low` is the lowest kind that is.
    fn follows(self, low: u8) -> bool
        ensures { result ≡ follows low self.kind }
    {
        (low <= self.kind) & (self.kind <= GROUP)
    }

    // Whether it is a group tie, which is gone along back too.
    fn is_group(self) -> bool
        ensures { result ≡ is_group self.kind }
    {
        self.kind == GROUP
    }
}

// What one tie adds to the set of these words.
fn pull(words: &mut [u64; 4], low: u8, tie: Tie)
    ensures { words_have words.new ≡ pulled low (tie_of tie.kind tie.leader tie.follower) (words_have words.old) }
{
    if among(words, tie.leader) {
        if tie.follows(low) {
            insert(words, tie.follower);
        }
    } else if tie.is_group() {
        if among(words, tie.follower) {
            insert(words, tie.leader);
        }
    }
}

// The place that a pass comes to after so many others: from the first tie on, or from the last one back.
fn place(passed: usize, count: usize, back: bool) -> usize
    requires { passed < count }
    ensures { result ≡ place_from back count passed }
{
    if back { count - 1 - passed } else { passed }
}

// What one pass over the ties adds to the set of these words. Which way it goes is a flag: two loops with one body would be no plainer.
pub fn pass(words: &mut [u64; 4], ties: &[u8], count: usize, low: u8, back: bool)
    requires { 4 * count ≤ length ties.now }
    ensures words_len_2 { length words.new ≡ 4 }
    ensures words_after { words_have words.new ≡ passed low (tie_from back ties.now count) count (words_have words.old) }
{
    for j in 0..count {
        let next = place(j, count, back);
        let tie = Tie::at(ties, next);
        pull(words, low, tie);
    }
}

// A number is put in the row of another.
fn note(rows: &mut [u64; 1024], a: u8, b: u8)
    ensures { (x y : ℕ) → row_has rows.new x y ≡ row_has rows.old x y || eqb x a && eqb y b }
{
    rows[usize::from(a) * 4 + usize::from(b / 64)] |= 1 << (b % 64);
}

// A tie that is gone along is noted in its leader's row, a group tie in its follower's too.
fn note_tie(rows: &mut [u64; 1024], low: u8, tie: Tie)
    requires { low ≤ 3 }
    ensures { (x y : ℕ) → row_has rows.new x y ≡ row_has rows.old x y || gone_along low (tie_of tie.kind tie.leader tie.follower) x y }
{
    if tie.follows(low) {
        note(rows, tie.leader, tie.follower);
        if tie.is_group() {
            note(rows, tie.follower, tie.leader);
        }
    }
}

// So of the first `count` ties of the section.
pub fn note_ties(rows: &mut [u64; 1024], ties: &[u8], count: usize, low: u8)
    requires rows_len { length rows.old ≡ 1024 }
    requires count_in_bounds { 4 * count ≤ length ties.now }
    requires low_bound { low ≤ 3 }
    ensures { (x y : ℕ) → row_has rows.new x y ≡ row_has rows.old x y || gone_in low ties.now count x y }
{
    for next in 0..count {
        let tie = Tie::at(ties, next);
        note_tie(rows, low, tie);
    }
}
