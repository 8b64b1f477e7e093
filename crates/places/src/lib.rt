// The tables with a fixed place for each number: the header's figures, the entries' values, the changes' statuses and parents.
#![tactic(auto)]

ghost use Rattle.std.specs.Prelude.{◌≡◌, List, not, ◌&&◌, ℕ, suc, ◌+◌, ◌<◌, ◌≤◌, ◌^◌, ltb, eqb, length, get_or, set};
ghost use Rattle.rules.specs.Base.{put, outside};
ghost use Rattle.rules.specs.Sets.{put_all};
ghost use Rattle.rules.specs.Window.{lives};
ghost use Rattle.layout.specs.Codec.{head_size, values_size, changes_size, head_section, value_section, change_section, unpack};
ghost use Rattle.sets.specs.Members.{members};
ghost use Rattle.places.specs.Statuses.{firsts, in_range};

pub mod changes;
pub mod header;

use crate::changes::Status;
use cells::{read_u16, read_u32, write_u16, write_u32};
use sets::ChangeSet;

// Figure k of the header.
#[tactic(auto, using(crate::proofs::TableLaws::figure_read))]
pub fn figure(head: &[u8], k: usize) -> usize
    requires head_len { length head.now ≡ head_size }
    requires k_bound { k < 32 }
    ensures { (fs : List ℕ) → head.now ≡ head_section fs → get_or fs k 0 < 65536 → result ≡ get_or fs k 0 }
{
    usize::from(read_u16(head, k * 2))
}

// Figure k of the header becomes v.
#[tactic(auto, using(crate::proofs::TableLaws::figure_store))]
pub fn store_figure(head: &mut [u8], k: usize, v: u16)
    requires head_len { length head.old ≡ head_size }
    requires k_bound { k < 32 }
    ensures { (fs : List ℕ) → head.old ≡ head_section fs → k < length fs → head.new ≡ head_section (set fs k v) }
{
    write_u16(head, k * 2, v);
}

// The value of an entry.
#[tactic(auto, using(crate::proofs::TableLaws::value_read))]
pub fn value(values: &[u8], e: u8) -> u32
    requires { length values.now ≡ values_size }
    ensures { (v : ℕ → ℕ) → values.now ≡ value_section v → v e < 2 ^ 32 → result ≡ v e }
{
    read_u32(values, usize::from(e) * 4)
}

// The value of an entry becomes x.
#[tactic(auto, using(crate::proofs::TableLaws::value_store))]
pub fn store_value(values: &mut [u8], e: u8, x: u32)
    requires { length values.old ≡ values_size }
    ensures { (v : ℕ → ℕ) → values.old ≡ value_section v → values.new ≡ value_section (put v e x) }
{
    write_u32(values, usize::from(e) * 4, x);
}

// The status of a change. It and the parent have a function each to read and to store them: one that is told which byte it is would be no
// plainer than the line that reads it.
#[tactic(auto, using(crate::proofs::TableLaws::status_read))]
pub fn status(changes: &[u8], c: u8) -> u8
    requires { length changes.now ≡ changes_size }
    ensures { (st pa : ℕ → ℕ) → changes.now ≡ change_section st pa → result ≡ st c }
{
    changes[usize::from(c) * 4]
}

// The parent of a change.
#[tactic(auto, using(crate::proofs::TableLaws::parent_read))]
pub fn parent(changes: &[u8], c: u8) -> u8
    requires { length changes.now ≡ changes_size }
    ensures { (st pa : ℕ → ℕ) → changes.now ≡ change_section st pa → result ≡ pa c }
{
    changes[usize::from(c) * 4 + 1]
}

// The status of a change becomes s.
#[tactic(auto, using(crate::proofs::TableLaws::status_store))]
pub fn store_status(changes: &mut [u8], c: u8, s: u8)
    requires { length changes.old ≡ changes_size }
    ensures { (st pa : ℕ → ℕ) → changes.old ≡ change_section st pa → changes.new ≡ change_section (put st c s) pa }
{
    changes[usize::from(c) * 4] = s;
}

// The parent of a change becomes p.
#[tactic(auto, using(crate::proofs::TableLaws::parent_store))]
pub fn store_parent(changes: &mut [u8], c: u8, p: u8)
    requires { length changes.old ≡ changes_size }
    ensures { (st pa : ℕ → ℕ) → changes.old ≡ change_section st pa → changes.new ≡ change_section st (put pa c p) }
{
    changes[usize::from(c) * 4 + 1] = p;
}

// The status of every member becomes s.
pub fn set_statuses(changes: &mut [u8], ended: ChangeSet, s: u8)
    requires { length changes.old ≡ changes_size }
    ensures { (st pa : ℕ → ℕ) → changes.old ≡ change_section st pa → changes.new ≡ change_section (put_all (members ended) s st) pa }
{
    let mut left = ended;
    while let Some(c) = left.pop_first() {
        store_status(changes, c, s);
    }
}

// The statuses from `low` to `high`.
#[derive(Clone, Copy)]
struct Statuses {
    low: u8,
    high: u8,
}

impl Statuses {
    // Whether a status is one of them.
    #[tactic(auto, unfolding(rules::specs::Base::outside))]
    fn has(self, status: u8) -> bool
        ensures { result ≡ not (outside self.low self.high status) }
    {
        !((status < self.low) | (self.high < status))
    }
}

// A word of a set: the changes from `first` up to `end`, at most 64 of them, that have one of the statuses.
fn word_within(changes: &[u8], first: usize, end: usize, statuses: Statuses) -> u64
    requires changes_len { length changes.now ≡ changes_size }
    requires end_bound { end ≤ 256 }
    requires end_bound_2 { end ≤ first + 64 }
    ensures { (j : ℕ) → j < 64 → unpack result j ≡ firsts end (in_range changes.now statuses.low statuses.high) (first + j) }
{
    let mut word: u64 = 0;
    for c in first..end {
        let test = statuses.has(changes[c * 4]);
        word |= u64::from(test) << (c - first);
    }
    word
}

// The changes up to the highest given that have one of the statuses: word by word, each in a register.
fn within(changes: &[u8], given: usize, statuses: Statuses) -> ChangeSet
    requires changes_len { length changes.now ≡ changes_size }
    requires given_bound { given < 256 }
    ensures { (st pa : ℕ → ℕ) → changes.now ≡ change_section st pa → (k : ℕ) → members result k ≡ ltb k (suc given) && not (outside statuses.low statuses.high (st k)) }
{
    let end = given + 1;
    ChangeSet {
        words: [
            word_within(changes, 0, end.min(64), statuses),
            word_within(changes, 64, end.min(128), statuses),
            word_within(changes, 128, end.min(192), statuses),
            word_within(changes, 192, end.min(256), statuses),
        ],
    }
}

// The live changes.
pub fn live_set(changes: &[u8], given: usize) -> ChangeSet
    requires changes_len { length changes.now ≡ changes_size }
    requires given_bound { given < 256 }
    ensures { (st pa : ℕ → ℕ) → changes.now ≡ change_section st pa → (k : ℕ) → members result k ≡ lives given st k }
{
    let live = Statuses {
        low: Status::Initiated as u8,
        high: Status::Completed as u8,
    };
    within(changes, given, live)
}

// The changes that have a status.
pub fn with_status(changes: &[u8], given: usize, s: u8) -> ChangeSet
    requires changes_len { length changes.now ≡ changes_size }
    requires given_bound { given < 256 }
    ensures { (st pa : ℕ → ℕ) → changes.now ≡ change_section st pa → (k : ℕ) → members result k ≡ ltb k (suc given) && eqb (st k) s }
{
    within(changes, given, Statuses { low: s, high: s })
}
