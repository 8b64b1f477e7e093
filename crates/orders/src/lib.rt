// The number of orders of groups in which each stands after all its leader groups (the linear extensions of the arrows), by the sets of what is left (dynamic programming over subsets).
// An index of a byte is written `as usize`: `usize::from` is no plainer there.
#![tactic(auto)]

ghost use Rattle.std.specs.Prelude.{◌≡◌, ◌||◌, ◌&&◌, ℕ, ◌*◌, ◌^◌, ◌≤◌, ◌<◌, eqb, length};
ghost use Rattle.rules.specs.Base.{count_below};
ghost use Rattle.rules.specs.Sets.{everything};
ghost use Rattle.rules.specs.Orders.{ways};
ghost use Rattle.rules.specs.Ties.{is_arrow};
ghost use Rattle.sets.specs.Members.{members};
ghost use Rattle.cycles.specs.Graph.{Between, graph_of, edge, tie_in_rows};
ghost use Rattle.orders.specs.Ways.{leads, free_of, sum_of, Blocks, Extended, Counted};
ghost use Rattle.orders.specs.Ranks.{ranks_of, rank_of, Leaderless, Led};

use layout::Ties;
use passes::is_arrow;
use sets::ChangeSet;

// The orders are counted for 12 groups at most, so that their number fits: 12! is 479,001,600.
pub const MOST: usize = 12;

// One number for each set of groups.
const SETS: usize = 4096;

// The number of orders of at most 12 groups in which each stands after all its leader groups: a group is the label of its members, and `firsts` has the labels.
// The ties are the first `count` of the section: the layout has the count in the header.
pub fn count_orders(ties: &[u8], count: usize, labels: &[u8; 256], firsts: ChangeSet) -> u32
    requires count_in_bounds { 4 * count ≤ length ties.now }
    requires firsts_bound { count_below 256 (members firsts) ≤ 12 }
    requires between { Between (graph_of ties.now labels.now) count (members firsts) }
    ensures { result ≡ ways 256 (edge (graph_of ties.now labels.now) count) (count_below 256 (members firsts)) (members firsts) }
{
    let used = &ties[..count * Ties::RECORD];
    let (rows, _) = used.as_chunks::<4>();
    let mut ranks = [0u8; 256];
    let n = rank(firsts, &mut ranks);
    let mut masks = [0u16; MOST];
    note_arrows(rows, labels, &ranks, &mut masks);
    count_masks(&masks, n)
}

// For each number how many members are below it; comes back how many there are.
fn rank(firsts: ChangeSet, ranks: &mut [u8; 256]) -> usize
    ensures count { result ≡ count_below 256 (members firsts) }
    ensures ranks { ranks.new ≡ ranks_of (members firsts) }
{
    let mut q: usize = 0;
    for k in 0..256 {
        ranks[k] = q as u8;
        q += usize::from(firsts.has(k as u8));
    }
    q
}

// The rank of a change's label.
fn rank_of(labels: &[u8; 256], ranks: &[u8; 256], c: u8) -> u8
    ensures { result ≡ rank_of labels.now ranks.now c }
{
    let label = labels[c as usize];
    ranks[label as usize]
}

// Where a tie is an arrow, its follower's rank is noted in the mask of its leader's.
fn note_arrow(masks: &mut [u16; MOST], kind: u8, from: u8, to: u8)
    ensures { (a b : ℕ) → a < 12 → b < 12 → leads masks.new a b ≡ leads masks.old a b || is_arrow kind && eqb from a && eqb to b }
{
    if is_arrow(kind) {
        let i = from as usize;
        if i < MOST {
            if (to as usize) < MOST {
                masks[i] |= 1 << to;
            }
        }
    }
}

// For each rank a mask of the ranks that follow it by one of the ties.
fn note_arrows(
    ties: &[[u8; Ties::RECORD]],
    labels: &[u8; 256],
    ranks: &[u8; 256],
    masks: &mut [u16; MOST],
)
    requires { Leaderless masks.old }
    ensures { Led (tie_in_rows ties.now) labels.now ranks.now (length ties.now) masks.new }
{
    for [kind, leader, follower, _] in ties {
        let from = rank_of(labels, ranks, *leader);
        let to = rank_of(labels, ranks, *follower);
        note_arrow(masks, *kind, from, to);
    }
}

// The number of orders of n groups in which each stands before all whose bits are set in its mask.
fn count_masks(masks: &[u16; MOST], n: usize) -> u32
    requires { n ≤ 12 }
    ensures { result ≡ ways n (leads masks.now) n everything }
{
    let mut known = [0u32; SETS];
    let mut blocked = [0u16; SETS];
    count_sets(&mut known, &mut blocked, masks, n);
    known[(1 << n) - 1]
}

// The numbers of orders of all sets of the first n groups, the lowest mask first.
fn count_sets(known: &mut [u32; SETS], blocked: &mut [u16; SETS], masks: &[u16; MOST], n: usize)
    requires { n ≤ 12 }
    ensures { Counted (leads masks.now) known.new (2 ^ n) }
{
    block_sets(blocked, masks, n);
    known[0] = 1;
    for left in 1..1 << n {
        known[left] = sum_free(known, left, blocked[left]);
    }
}

// For each set of the first n groups a mask of those that a member leads.
fn block_sets(blocked: &mut [u16; SETS], masks: &[u16; MOST], n: usize)
    requires { n ≤ 12 }
    ensures { Blocks (leads masks.now) blocked.new (2 ^ n) }
{
    blocked[0] = 0;
    for h in 0..n {
        extend(blocked, 1 << h, masks[h]);
    }
}

// The sets with one group more: each stands `size` places after the set without it, and blocks those of its mask too.
fn extend(blocked: &mut [u16; SETS], size: usize, mask: u16)
    requires { size ≤ 2048 }
    ensures { Extended size size mask blocked.old blocked.new }
{
    for r in 0..size {
        blocked[size + r] = blocked[r] | mask;
    }
}

// The sum of the numbers of the sets without one of those left that is not blocked. The walk goes over the bits of a mask: no place is counted.
fn sum_free(known: &[u32; SETS], left: usize, blocked: u16) -> u32
    requires left_bound { left < 4096 }
    requires blocked_bound { sum_of known.now left (free_of left blocked) < 2 ^ 32 }
    ensures { result ≡ sum_of known.now left (free_of left blocked) }
{
    let mut free = left & !(blocked as usize);
    let mut sum: u32 = 0;
    while free != 0 {
        let lowest: usize = 1 << usize::trailing_zeros(free);
        sum += known[left ^ lowest];
        free ^= lowest;
    }
    sum
}
