// Whether the arrows between groups of changes close a cycle (a topological sort of the groups).
// An index of a byte is written `as usize`: `usize::from` is no plainer there.
#![tactic(auto)]

ghost use Rattle.std.specs.Prelude.{◌≡◌, true, not, ◌&&◌, List, map, ℕ, ◌*◌, ◌-◌, ◌≤◌, ◌<◌, eqb, length, get_or, set};
ghost use Rattle.std.specs.Option.{unwrap_or};
ghost use Rattle.rules.specs.Base.{any_below, lowest_below};
ghost use Rattle.rules.specs.Window.{TieRecord};
ghost use Rattle.rules.specs.Ties.{is_arrow, acyclic};
ghost use Rattle.layout.specs.Codec.{tie_section};
ghost use Rattle.layout.specs.Records.{ends_below};
ghost use Rattle.sets.specs.Members.{members};
ghost use Rattle.cycles.specs.Graph.{own_labels, instead, tie_of_row, tie_in_rows, joined, labelled, arrow_in, graph_in, no_cycle, sources};
ghost use Rattle.cycles.specs.Links.{lists_of, Blank, with_arrow, with_tie, Linked, Removable, Removed, Kept};

use layout::Ties;
use passes::is_arrow;
use sets::ChangeSet;
use words::{insert, remove};

// The kind of a group tie.
const GROUP: u8 = 3;

// A place of no arrow: what is in `next` before an arrow is linked there. Not 0, since three shorter runs are filled sooner than one.
const UNSET: u16 = 0xFFFF;

// Arrows in lists by the label that they go from (adjacency lists), with counts by the label that they come to. Fixed memory, no heap: the
// lists are places in arrays, counted from 1, since an Option in their stead takes twice the room.
#[derive(Drop)]
struct Arrows {
    // For each label the place after its last arrow; 0 where it has none.
    heads: [u16; 256],
    // For each place of an arrow the place after the last arrow before it from the same label; 0 where there is none.
    next: [u16; Ties::MOST],
    // How many arrows come to each label.
    incoming: [u16; 256],
    // The labels that arrows go from and that are left.
    left: ChangeSet,
    // The labels that an arrow comes to.
    blocked: ChangeSet,
}

// Whether no path of arrows returns to its group, of the first `count` ties of the section: the layout has the count in the header.
pub fn acyclic(ties: &[u8], count: usize) -> bool
    requires count_in_bounds { 4 * count ≤ length ties.now }
    requires count_bound { count ≤ 512 }
    ensures { (ts : List TieRecord) (n : ℕ) → length ts ≡ count → ties.now ≡ tie_section ts → ends_below n ts ≡ true → result ≡ acyclic n ts }
{
    let used = &ties[..count * Ties::RECORD];
    let (rows, _) = used.as_chunks::<4>();
    if has_arrow(rows) {
        let mut labels = [0u8; 256];
        label_groups(rows, &mut labels);
        return arrows_acyclic(rows, &labels);
    }
    true
}

// Whether an arrow stands.
fn has_arrow(ties: &[[u8; Ties::RECORD]]) -> bool
    ensures { result ≡ any_below (length ties.now) (arrow_in (tie_in_rows ties.now)) }
{
    ties.iter().any(|tie| is_arrow(tie[0]))
}

// Each change's label is its own number.
fn own_labels(labels: &mut [u8; 256])
    ensures { labels.new ≡ own_labels }
{
    for k in 0..256 {
        labels[k] = k as u8;
    }
}

// A label, or the new one where it is the old one: a choice without a branch, so that the loop over the labels is vectorised.
fn renew(x: u8, old: u8, new: u8) -> u8
    ensures { result ≡ instead old new x }
{
    if x == old { new } else { x }
}

// A new label in place of an old one.
fn relabel(labels: &mut [u8; 256], old: u8, new: u8)
    ensures { labels.new ≡ map (instead old new) labels.old }
{
    for label in labels.iter_mut() {
        *label = renew(*label, old, new);
    }
}

// One tie: the ends of a group tie get one label.
fn join(labels: &mut [u8; 256], tie: [u8; Ties::RECORD])
    ensures { labels.new ≡ joined (tie_of_row tie) labels.old }
{
    let [kind, leader, follower, _] = tie;
    if kind == GROUP {
        let new = labels[leader as usize];
        let old = labels[follower as usize];
        if new != old {
            relabel(labels, old, new);
        }
    }
}

// The labels of the groups that the ties make.
fn label_groups(ties: &[[u8; Ties::RECORD]], labels: &mut [u8; 256])
    ensures { labels.new ≡ labelled (tie_in_rows ties.now) (length ties.now) own_labels }
{
    own_labels(labels);
    for tie in ties {
        join(labels, *tie);
    }
}

// Whether the arrows between labels close no cycle.
fn arrows_acyclic(ties: &[[u8; Ties::RECORD]], labels: &[u8; 256]) -> bool
    requires { length ties.now ≤ 512 }
    ensures { result ≡ no_cycle (graph_in (tie_in_rows ties.now) labels.now) (length ties.now) }
{
    let mut arrows = Arrows {
        heads: [0; 256],
        next: [UNSET; Ties::MOST],
        incoming: [0; 256],
        left: ChangeSet { words: [0; 4] },
        blocked: ChangeSet { words: [0; 4] },
    };
    arrows.link_ties(ties, labels);
    arrows.eliminate(ties, labels)
}

// c is taken out of a set: one word of it changes.
fn take_out(set: &mut ChangeSet, c: u8)
    ensures { (k : ℕ) → members set.new k ≡ not (eqb k c) && members set.old k }
{
    remove(&mut set.words, c);
}

impl Arrows {
    // The arrow at place j is put at the head of the list of the label that it goes from, and counted at the label that it comes to.
    // One word of each set changes, and no set is copied.
    fn link_arrow(&mut self, j: usize, from: u8, to: u8)
        requires { (j < 512) × (get_or self.old.incoming to 0 ≤ j) }
        ensures { lists_of self.new ≡ with_arrow j from to (lists_of self.old) }
    {
        let a = from as usize;
        let b = to as usize;
        self.next[j] = self.heads[a];
        self.heads[a] = (j + 1) as u16;
        self.incoming[b] += 1;
        insert(&mut self.left.words, from);
        insert(&mut self.blocked.words, to);
    }

    // The tie at place j, linked if it is an arrow.
    fn link_tie(&mut self, labels: &[u8; 256], j: usize, tie: [u8; Ties::RECORD])
        requires { (j < 512) × ((k : ℕ) → get_or self.old.incoming k 0 ≤ j) }
        ensures { let t = tie_of_row tie in lists_of self.new ≡ with_tie (is_arrow t.kind) j (get_or labels.now t.leader 0) (get_or labels.now t.follower 0) (lists_of self.old) }
    {
        let [kind, leader, follower, _] = tie;
        let linked = is_arrow(kind);
        if linked {
            let from = labels[leader as usize];
            let to = labels[follower as usize];
            self.link_arrow(j, from, to);
        }
    }

    // All arrows are linked.
    fn link_ties(&mut self, ties: &[[u8; Ties::RECORD]], labels: &[u8; 256])
        requires { (length ties.now ≤ 512) × Blank self.old }
        ensures { Linked (graph_in (tie_in_rows ties.now) labels.now) (length ties.now) (lists_of self.new) }
    {
        for (j, tie) in ties.iter().enumerate() {
            self.link_tie(labels, j, *tie);
        }
    }

    // One arrow to k is removed; without the last of them k is blocked no more.
    fn remove_arrow(&mut self, k: u8)
        requires { 0 < get_or self.old.incoming k 0 }
        ensures kept { Kept self.old self.new }
        ensures incoming { self.new.incoming ≡ set self.old.incoming k (get_or self.old.incoming k 0 - 1) }
        ensures blocked { (i : ℕ) → members self.new.blocked i ≡ not (eqb i k && eqb (get_or self.old.incoming k 0 - 1) 0) && members self.old.blocked i }
    {
        let a = k as usize;
        let n = self.incoming[a] - 1;
        self.incoming[a] = n;
        let last = n == 0;
        if last {
            take_out(&mut self.blocked, k);
        }
    }

    // The arrows that go from v are removed, the last first. The walk follows a list: no place is counted.
    fn remove_arrows(&mut self, ties: &[[u8; Ties::RECORD]], labels: &[u8; 256], v: u8)
        requires { (get_or self.old.heads v 0 ≤ 512) × (get_or self.old.heads v 0 ≤ length ties.now) × Removable (graph_in (tie_in_rows ties.now) labels.now) v (get_or self.old.heads v 0) self.old.next self.old.incoming (members self.old.blocked) }
        ensures kept { Kept self.old self.new }
        ensures removed { Removed (graph_in (tie_in_rows ties.now) labels.now) v (get_or self.old.heads v 0) self.old.incoming self.new.incoming (members self.new.blocked) }
    {
        let mut e = self.heads[v as usize] as usize;
        while e > 0 {
            let j = e - 1;
            let follower = ties[j][2];
            self.remove_arrow(labels[follower as usize]);
            e = self.next[j] as usize;
        }
    }

    // The lowest label that is left and that no arrow comes to.
    fn lowest_source(&self) -> Option<u8>
        ensures { unwrap_or result 256 ≡ lowest_below 256 (sources (members self.now.left) (members self.now.blocked)) }
    {
        self.left.minus(self.blocked).first()
    }

    // Whether the linked arrows close no cycle: of the labels that arrows go from, each that no arrow comes to is taken away with its arrows, and none is left.
    fn eliminate(&mut self, ties: &[[u8; Ties::RECORD]], labels: &[u8; 256]) -> bool
        requires { (length ties.now ≤ 512) × Linked (graph_in (tie_in_rows ties.now) labels.now) (length ties.now) (lists_of self.old) }
        ensures { result ≡ no_cycle (graph_in (tie_in_rows ties.now) labels.now) (length ties.now) }
    {
        while let Some(v) = self.lowest_source() {
            take_out(&mut self.left, v);
            self.remove_arrows(ties, labels, v);
        }
        self.left.is_empty()
    }
}
