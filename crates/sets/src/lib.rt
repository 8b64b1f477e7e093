// Sets of changes, in four 64-bit words by value.
#![tactic(auto)]

ghost use Rattle.std.specs.Prelude.{◌≡◌, false, not, ◌||◌, ◌&&◌, List, ℕ, ◌+◌, ◌*◌, ◌≤◌, leb, eqb, length};
ghost use Rattle.std.specs.Option.{unwrap_or};
ghost use Rattle.rules.specs.Base.{any_below, all_below, lowest_below, count_below};
ghost use Rattle.rules.specs.Sets.{closure};
ghost use Rattle.rules.specs.Window.{TieRecord};
ghost use Rattle.layout.specs.Codec.{tie_section};
ghost use Rattle.passes.specs.TieRows.{row_has};
ghost use Rattle.sets.specs.Members.{members, agree, loaded, stored};
ghost use Rattle.sets.specs.Closure.{relation, low_kind, Spread};

use cells::{read_u64, write_u64};
use passes::{note_ties, pass};
use words::{among, bit_in, without_lowest};

// From so many ties on a closure notes them in rows.
const FEW: usize = 32;

// A set of change numbers (a bit set): bit c % 64 of word c / 64 says whether c is a member.
#[derive(Clone, Copy, PartialEq, Eq)]
pub struct ChangeSet {
    pub words: [u64; 4],
}

// The ties that a closure goes along: group ties either way; besides, from leader to follower, fall ties, or wait and fall ties.
// Each by the lowest kind of tie that is gone along from leader to follower.
#[derive(Clone, Copy)]
pub enum Along {
    Groups = 3,
    Falls = 2,
    Arrows = 1,
}

impl Along {
    // The lowest kind of tie that is gone along from leader to follower.
    fn low_kind(self) -> u8
        ensures { result ≡ low_kind self }
    {
        self as u8
    }
}

impl ChangeSet {
    // The set with no members.
    pub fn empty() -> ChangeSet
        ensures { (k : ℕ) → members result k ≡ false }
    {
        ChangeSet { words: [0; 4] }
    }

    // The set of c alone. Each word by a test: an index that varies would keep the set in memory.
    fn single(c: u8) -> ChangeSet
        ensures { (k : ℕ) → members result k ≡ eqb k c }
    {
        ChangeSet {
            words: [bit_in(c, 0), bit_in(c, 1), bit_in(c, 2), bit_in(c, 3)],
        }
    }

    // Whether c is a member.
    pub fn has(self, c: u8) -> bool
        ensures { result ≡ members self c }
    {
        among(&self.words, c)
    }

    // The set with c.
    pub fn add(self, c: u8) -> ChangeSet
        ensures { (k : ℕ) → members result k ≡ eqb k c || members self k }
    {
        ChangeSet::single(c).unite(self)
    }

    // The set, with c where a test passed.
    pub fn add_if(self, c: u8, test: bool) -> ChangeSet
        ensures { (k : ℕ) → members result k ≡ members self k || eqb c k && test }
    {
        if test {
            return self.add(c);
        }
        self
    }

    // The set without c.
    pub fn without(self, c: u8) -> ChangeSet
        ensures { (k : ℕ) → members result k ≡ not (eqb k c) && members self k }
    {
        self.minus(ChangeSet::single(c))
    }

    // The members of either. A method, as `minus`: at the callers `|` would be no plainer.
    pub fn unite(self, other: ChangeSet) -> ChangeSet
        ensures { (k : ℕ) → members result k ≡ members self k || members other k }
    {
        let a = self.words;
        let b = other.words;
        ChangeSet {
            words: [a[0] | b[0], a[1] | b[1], a[2] | b[2], a[3] | b[3]],
        }
    }

    // The members that are not the other's.
    pub fn minus(self, other: ChangeSet) -> ChangeSet
        ensures { (k : ℕ) → members result k ≡ members self k && not (members other k) }
    {
        let a = self.words;
        let b = other.words;
        ChangeSet {
            words: [a[0] & !b[0], a[1] & !b[1], a[2] & !b[2], a[3] & !b[3]],
        }
    }

    // Whether there is no member. The four words by one test, and not each by its own as `==` would have it: each entry of a window is asked.
    pub fn is_empty(self) -> bool
        ensures { result ≡ not (any_below 256 (members self)) }
    {
        let w = self.words;
        (w[0] | w[1] | w[2] | w[3]) == 0
    }

    // Whether the members are the other's.
    fn equal(self, other: ChangeSet) -> bool
        ensures { result ≡ all_below 256 (agree (members self) (members other)) }
    {
        self == other
    }

    // The lowest member, where there is one. Here and in `rest` each word by a test, as in `single`.
    pub fn first(self) -> Option<u8>
        ensures { unwrap_or result 256 ≡ lowest_below 256 (members self) }
    {
        let w = self.words;
        if w[0] != 0 {
            return Some(w[0].trailing_zeros() as u8);
        }
        if w[1] != 0 {
            return Some(64 + w[1].trailing_zeros() as u8);
        }
        if w[2] != 0 {
            return Some(128 + w[2].trailing_zeros() as u8);
        }
        if w[3] != 0 {
            return Some(192 + w[3].trailing_zeros() as u8);
        }
        None
    }

    // The lowest member, taken out.
    pub fn pop_first(&mut self) -> Option<u8>
        ensures lowest { unwrap_or result 256 ≡ lowest_below 256 (members self.old) }
        ensures rest { (k : ℕ) → members self.new k ≡ not (eqb k (lowest_below 256 (members self.old))) && members self.old k }
    {
        let first = self.first();
        *self = self.rest();
        first
    }

    // The set without its lowest member.
    pub fn rest(self) -> ChangeSet
        ensures { (k : ℕ) → members result k ≡ not (eqb k (lowest_below 256 (members self))) && members self k }
    {
        let w = self.words;
        if w[0] != 0 {
            return ChangeSet {
                words: [without_lowest(w[0]), w[1], w[2], w[3]],
            };
        }
        if w[1] != 0 {
            return ChangeSet {
                words: [0, without_lowest(w[1]), w[2], w[3]],
            };
        }
        if w[2] != 0 {
            return ChangeSet {
                words: [0, 0, without_lowest(w[2]), w[3]],
            };
        }
        if w[3] != 0 {
            return ChangeSet {
                words: [0, 0, 0, without_lowest(w[3])],
            };
        }
        self
    }

    // How many members there are.
    pub fn count(self) -> u32
        ensures { result ≡ count_below 256 (members self) }
    {
        let w = self.words;
        w[0].count_ones() + w[1].count_ones() + w[2].count_ones() + w[3].count_ones()
    }

    // The set whose 32 bytes stand at a place; no members where there are not 32.
    pub fn load(bytes: &[u8], at: usize) -> ChangeSet
        ensures { (k : ℕ) → members result k ≡ loaded bytes.now at k }
    {
        if !has_room(bytes, at) {
            return ChangeSet::empty();
        }
        ChangeSet {
            words: [
                read_u64(bytes, at),
                read_u64(bytes, at + 8),
                read_u64(bytes, at + 16),
                read_u64(bytes, at + 24),
            ],
        }
    }

    // Puts the set's 32 bytes at a place; nothing where there is no room.
    pub fn store(self, bytes: &mut [u8], at: usize)
        ensures { bytes.new ≡ stored (members self) bytes.old at }
    {
        if !has_room(bytes, at) {
            return;
        }
        let w = self.words;
        write_u64(bytes, at, w[0]);
        write_u64(bytes, at + 8, w[1]);
        write_u64(bytes, at + 16, w[2]);
        write_u64(bytes, at + 24, w[3]);
    }

    // The least set that holds this one and is closed along the first `count` ties of the section.
    pub fn close(self, ties: &[u8], count: usize, along: Along) -> ChangeSet
        requires { 4 * count ≤ length ties.now }
        ensures { (ts : List TieRecord) → length ts ≡ count → ties.now ≡ tie_section ts → (k : ℕ) → members result k ≡ closure 256 (relation along ts) (members self) k }
    {
        if count < FEW {
            return self.close_few(ties, count, along);
        }
        let low = along.low_kind();
        let mut rows = [0u64; 1024];
        note_ties(&mut rows, ties, count, low);
        self.spread(&rows)
    }

    // The same by passes over the ties until one adds nothing, which turn round where one has added a single member.
    fn close_few(self, ties: &[u8], count: usize, along: Along) -> ChangeSet
        requires { 4 * count ≤ length ties.now }
        ensures { (ts : List TieRecord) → length ts ≡ count → ties.now ≡ tie_section ts → (k : ℕ) → members result k ≡ closure 256 (relation along ts) (members self) k }
    {
        let low = along.low_kind();
        let mut set = self;
        let mut back = false;
        loop {
            let before = set;
            pass(&mut set.words, ties, count, low, back);
            if set.equal(before) {
                return set;
            }
            // Where one member was added, the next pass goes the other way.
            back ^= set.minus(before).count() == 1;
        }
    }

    // The least set that holds this one and is closed along rows: each member's row is taken in once, the lowest first.
    fn spread(self, rows: &[u64; 1024]) -> ChangeSet
        ensures { Spread rows.now (members self) (members result) }
    {
        let mut s = self;
        let mut left = self;
        while let Some(c) = left.pop_first() {
            let row = row_at(rows, c);
            left = left.unite(row.minus(s));
            s = s.unite(row);
        }
        s
    }
}

// Whether a set's 32 bytes have room at a place.
fn has_room(bytes: &[u8], at: usize) -> bool
    ensures { result ≡ leb (at + 32) (length bytes.now) }
{
    bytes.len().checked_sub(32).is_some_and(|last| at <= last)
}

// The row of a number, as a set.
fn row_at(rows: &[u64; 1024], c: u8) -> ChangeSet
    ensures { (k : ℕ) → members result k ≡ row_has rows.now c k }
{
    let i = usize::from(c) * 4;
    ChangeSet {
        words: [rows[i], rows[i + 1], rows[i + 2], rows[i + 3]],
    }
}
