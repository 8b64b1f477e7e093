// Whether the lent sections of permits and of ties are those of a sound window: rows in rising order, each a sound record.
#![tactic(auto)]

ghost use Rattle.std.specs.Prelude.{◌≡◌, true, Bool, ◌&&◌, ◌↔◌, ℕ, ◌+◌, ◌*◌, ◌≤◌, ◌<◌, eqb, length, get_or};
ghost use Rattle.rules.specs.Base.{all_below};
ghost use Rattle.rules.specs.Locks.{make_permit};
ghost use Rattle.rules.specs.Sound.{permit_sound, tie_sound};
ghost use Rattle.layout.specs.Codec.{permits_size, ties_size};
ghost use Rattle.layout.specs.Records.{tie_of, tie_at, permit_at};
ghost use Rattle.words.specs.Members.{words_have};
ghost use Rattle.sets.specs.Members.{members};
ghost use Rattle.row_sections.specs.Fits.{is_in_order};
ghost use Rattle.row_sections.specs.Sections.{PermitsSound, TiesSound};

use cells::all_zero;
use layout::{Permits, Ties};
use rows::key_at;
use sets::ChangeSet;
use words::among;

// Whether the first `count` rows stand in order, each key at least one more than the last, and each passes a test.
fn standing<F: Fn(usize) -> bool>(rows: &[u8], count: usize, fits: F) -> bool
    requires count_in_bounds { 4 * count ≤ length rows.now }
    requires callable { (j : ℕ) → j < count → F.pre fits j }
    ensures { (own : ℕ → Bool) → ((j : ℕ) (r : Bool) → j < count → F.post fits j r → r ≡ own j) → result ≡ all_below count (λ j. own j && is_in_order rows.now j) }
{
    let mut next: u32 = 0;
    for j in 0..count {
        if !fits(j) {
            return false;
        }
        let key = key_at(rows, j);
        if key < next {
            return false;
        }
        next = key + 1;
    }
    true
}

// A permit: giver live, taker live or 0, an entry that there is, operations from 1 to 3, two different parties. The live set is lent as its words.
fn permit(entry: u8, giver: u8, taker: u8, ops: u8, entries: usize, live: &[u64; 4]) -> bool
    ensures { result ≡ permit_sound entries (words_have live.now) (make_permit giver taker entry ops) }
{
    among(live, giver)
        & ((taker == 0) | among(live, taker))
        & (usize::from(entry) < entries)
        & (1..=3).contains(&ops)
        & (giver != taker)
}

// The permit at place j.
fn permit_at(permits: &[u8], j: usize, entries: usize, live: &[u64; 4]) -> bool
    requires { j * 4 + 4 ≤ length permits.now }
    ensures { result ≡ permit_sound entries (words_have live.now) (permit_at permits.now j) }
{
    let at = j * Permits::RECORD;
    permit(
        permits[at],
        permits[at + 1],
        permits[at + 2],
        permits[at + 3],
        entries,
        live,
    )
}

// Givers and takers live, in order, and the unused places 0.
pub fn permits(permits: &[u8], count: usize, entries: usize, live: ChangeSet) -> bool
    requires permits_len { length permits.now ≡ permits_size }
    requires count_bound { count ≤ 1024 }
    ensures { result ≡ true ↔ PermitsSound permits.now count entries (members live) }
{
    let words = live.words;
    if !standing(permits, count, |j| permit_at(permits, j, entries, &words)) {
        return false;
    }
    all_zero(permits, count * Permits::RECORD, Permits::SIZE)
}

// A tie: kind from 1 to 3, both ends live and different, the lower one leading a group tie.
fn tie(kind: u8, leader: u8, follower: u8, live: &[u64; 4]) -> bool
    ensures { result ≡ tie_sound (words_have live.now) (tie_of kind leader follower) }
{
    (1..=3).contains(&kind)
        & among(live, leader)
        & among(live, follower)
        & (leader != follower)
        & ((kind != 3) | (leader < follower))
}

// The tie at place j, and its last byte 0.
fn tie_at(ties: &[u8], j: usize, live: &[u64; 4]) -> bool
    requires { j * 4 + 4 ≤ length ties.now }
    ensures { result ≡ tie_sound (words_have live.now) (tie_at ties.now j) && eqb (get_or ties.now (j * 4 + 3) 0) 0 }
{
    let at = j * Ties::RECORD;
    tie(ties[at], ties[at + 1], ties[at + 2], live) & (ties[at + 3] == 0)
}

// Both ends live, in order, and the unused places 0.
pub fn ties(ties: &[u8], count: usize, live: ChangeSet) -> bool
    requires ties_len { length ties.now ≡ ties_size }
    requires count_bound { count ≤ 512 }
    ensures { result ≡ true ↔ TiesSound ties.now count (members live) }
{
    let words = live.words;
    if !standing(ties, count, |j| tie_at(ties, j, &words)) {
        return false;
    }
    all_zero(ties, count * Ties::RECORD, Ties::SIZE)
}
