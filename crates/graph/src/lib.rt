// Groups, end sets and leaders of changes, and whether a new tie would let a path return to its group: read from the first `count` ties of a section.
#![tactic(auto)]

ghost use Rattle.std.specs.Prelude.{◌≡◌, true, false, not, ◌||◌, List, ℕ, ◌*◌, ◌≤◌, ◌<◌, length};
ghost use Rattle.rules.specs.Base.{outside};
ghost use Rattle.rules.specs.Sets.{reach};
ghost use Rattle.rules.specs.Window.{TieRecord};
ghost use Rattle.rules.specs.Ties.{grouped, falling, leading, make_tie, add_tie, acyclic};
ghost use Rattle.rules.specs.Effects.{leads_to, leaders_of};
ghost use Rattle.layout.specs.Codec.{tie_section};
ghost use Rattle.layout.specs.Records.{ends_below, tie_of};
ghost use Rattle.sets.specs.Members.{members};
ghost use Rattle.sets.specs.Closure.{relation};

use layout::Ties;
use passes::is_arrow;
use sets::{Along, ChangeSet};

// All that the ties lead to from a change.
fn reached(ties: &[u8], count: usize, c: u8, along: Along) -> ChangeSet
    requires { 4 * count ≤ length ties.now }
    ensures { (ts : List TieRecord) → length ts ≡ count → ties.now ≡ tie_section ts → (n : ℕ) → ends_below n ts ≡ true → (k : ℕ) → members result k ≡ reach n (relation along ts) c k }
{
    ChangeSet::empty().add(c).close(ties, count, along)
}

// The group of a change: all that group ties reach from it.
#[tactic(auto, unfolding(sets::specs::Closure::relation))]
pub fn group(ties: &[u8], count: usize, c: u8) -> ChangeSet
    requires { 4 * count ≤ length ties.now }
    ensures { (ts : List TieRecord) → length ts ≡ count → ties.now ≡ tie_section ts → (n : ℕ) → ends_below n ts ≡ true → (k : ℕ) → members result k ≡ reach n (grouped ts) c k }
{
    reached(ties, count, c, Along::Groups)
}

// What an abort of a change ends: all that group ties and fall ties reach from it.
#[tactic(auto, unfolding(sets::specs::Closure::relation))]
pub fn end_set(ties: &[u8], count: usize, c: u8) -> ChangeSet
    requires { 4 * count ≤ length ties.now }
    ensures { (ts : List TieRecord) → length ts ≡ count → ties.now ≡ tie_section ts → (n : ℕ) → ends_below n ts ≡ true → (k : ℕ) → members result k ≡ reach n (falling ts) c k }
{
    reached(ties, count, c, Along::Falls)
}

// Whether group ties and arrows lead from one change to another.
#[tactic(auto, unfolding(sets::specs::Closure::relation))]
fn leads(ties: &[u8], count: usize, from: u8, to: u8) -> bool
    requires { 4 * count ≤ length ties.now }
    ensures { (ts : List TieRecord) → length ts ≡ count → ties.now ≡ tie_section ts → (n : ℕ) → ends_below n ts ≡ true → result ≡ reach n (leading ts) from to }
{
    reached(ties, count, from, Along::Arrows).has(to)
}

// Whether a new tie would let a path of arrows return to its group, where none does.
pub fn returns(ties: &[u8], count: usize, kind: u8, leader: u8, follower: u8) -> bool
    requires { 4 * count ≤ length ties.now }
    ensures { (ts : List TieRecord) → length ts ≡ count → ties.now ≡ tie_section ts → (n : ℕ) → ends_below n ts ≡ true → leader < n → follower < n → outside 1 3 kind ≡ false → acyclic n ts ≡ true → result ≡ not (acyclic n (add_tie (make_tie kind leader follower) ts)) }
{
    let back = leads(ties, count, follower, leader);
    let arrow = is_arrow(kind);
    if arrow {
        return back;
    }
    back != leads(ties, count, leader, follower)
}

// The leaders of wait or fall ties to a member.
pub fn leaders(ties: &[u8], count: usize, followers: ChangeSet) -> ChangeSet
    requires { 4 * count ≤ length ties.now }
    ensures { (ts : List TieRecord) → length ts ≡ count → ties.now ≡ tie_section ts → (k : ℕ) → members result k ≡ leaders_of ts (members followers) k }
{
    let (rows, _) = ties[..count * Ties::RECORD].as_chunks::<4>();
    let mut found = ChangeSet::empty();
    for [kind, leader, follower, _] in rows {
        found = with_leader(found, followers, *kind, *leader, *follower);
    }
    found
}

// The set with a tie's leader, where the tie is a wait or fall tie to a member of `followers`.
fn with_leader(
    found: ChangeSet,
    followers: ChangeSet,
    kind: u8,
    leader: u8,
    follower: u8,
) -> ChangeSet
    ensures { (k : ℕ) → members result k ≡ members found k || leads_to (members followers) k (tie_of kind leader follower) }
{
    found.add_if(leader, is_arrow(kind) & followers.has(follower))
}
