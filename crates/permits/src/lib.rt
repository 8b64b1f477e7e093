// The table of permits in its lent section: one for each giver, taker and entry, in rising order of entry, giver, taker.
#![tactic(auto)]

ghost use Rattle.std.specs.Prelude.{◌≡◌, true, not, ◌&&◌, ◌||◌, ℕ, ◌+◌, ◌*◌, ◌≤◌, eqb, length};
ghost use mathlib.Core.List.{List, map, foldr};
ghost use Rattle.rules.specs.Base.{rising, exceeds};
ghost use Rattle.rules.specs.Window.{limits, PermitRecord, permit_key};
ghost use Rattle.rules.specs.Locks.{permitted, make_permit, add_permit};
ghost use Rattle.rules.specs.Effects.{move_permits, permits_left};
ghost use Rattle.layout.specs.Codec.{permits_size, permit_section};
ghost use Rattle.layout.specs.Records.{Tabled};
ghost use Rattle.sets.specs.Members.{members};
ghost use Rattle.scope.specs.Entries.{entries_of};
ghost use Rattle.rows.specs.Rows.{row_key, row_at, rows, add_row, unless_over, Stored};
ghost use Rattle.permits.specs.PermitRows.{with_giver, serves};

use beside::contains;
use layout::Permits;
use rows::{place, retain};
use scope::HandOver;
use sets::ChangeSet;

// Whether a permit of the key can be added, with any operations: there is room, or one stands already. A table is the bytes that a window
// lends, and its count a figure of another section: an array's type, or one value of both, would be no plainer for the callers.
pub fn fits(permits: &[u8], count: usize, giver: u8, taker: u8, entry: u8) -> bool
    requires permits_len { length permits.now ≡ permits_size }
    requires count_bound { count ≤ 1024 }
    ensures { (ps : List PermitRecord) → length ps ≡ count → permits.now ≡ permit_section ps → rising permit_key ps ≡ true → (operations : ℕ) → result ≡ not (exceeds (length (add_permit (make_permit giver taker entry operations) ps)) limits.permits) }
{
    rows::has_room(permits, count, Permits::MOST, [entry, giver, taker])
}

// A permit is entered, or united with the one that stands; where there is no room, nothing changes. What comes back is how many
// permits there are.
pub fn add(
    permits: &mut [u8],
    count: usize,
    giver: u8,
    taker: u8,
    entry: u8,
    operations: u8,
) -> usize
    requires permits_len { length permits.old ≡ permits_size }
    requires count_bound { count ≤ 1024 }
    ensures upper_bound { result ≤ 1024 }
    ensures tabled { (ps : List PermitRecord) → length ps ≡ count → permits.old ≡ permit_section ps → rising permit_key ps ≡ true → Tabled permit_section (unless_over limits.permits (add_permit (make_permit giver taker entry operations) ps) ps) result permits.new }
{
    let row = [entry, giver, taker, operations];
    rows::insert(permits, count, Permits::MOST, row)
}

// The permits given or received by a change of the set go. What comes back is how many are left.
pub fn drop_ended(permits: &mut [u8], count: usize, ended: ChangeSet) -> usize
    requires permits_len { length permits.old ≡ permits_size }
    requires count_bound { count ≤ 1024 }
    ensures upper_bound { result ≤ count }
    ensures tabled { (ps : List PermitRecord) → length ps ≡ count → permits.old ≡ permit_section ps → Tabled permit_section (permits_left (members ended) ps) result permits.new }
{
    rows::drop_involving(permits, count, ended)
}

// The first m rows of `moved` are added as given by `to`, the last first.
fn give_all(s: &mut [u8], n: usize, moved: &[u8], m: usize, to: u8) -> usize
    requires n_bound { n ≤ 1024 }
    requires s_len { length s.old ≡ permits_size }
    requires m_in_bounds { 4 * m ≤ length moved.now }
    ensures upper_bound { result ≤ 1024 }
    ensures stored { rising row_key (rows n s.old) ≡ true → n + m ≤ 1024 → Stored (foldr add_row (rows n s.old) (map (with_giver to) (rows m moved.now))) s.old result s.new }
{
    let (rows, _) = moved.as_chunks::<4>();
    let mut count = n;
    for i in (0..m).rev() {
        let [entry, _, taker, operations] = rows[i];
        count = rows::insert(s, count, Permits::MOST, [entry, to, taker, operations]);
    }
    count
}

// The permits that `from` has given, on the entries that are named, become those of `to`. What comes back is how many permits there are.
pub fn hand_over(permits: &mut [u8], count: usize, over: HandOver) -> usize
    requires permits_len { length permits.old ≡ permits_size }
    requires count_bound { count ≤ 1024 }
    ensures upper_bound { result ≤ 1024 }
    ensures tabled { (ps : List PermitRecord) → length ps ≡ count → permits.old ≡ permit_section ps → rising permit_key ps ≡ true → Tabled permit_section (move_permits over.from over.to (entries_of over.scope) ps) result permits.new }
{
    let mut moved = [0u8; Permits::SIZE];
    moved.copy_from_slice(permits);
    let given = |row: &[u8]| over.takes(row[1], row[0]);
    let m = retain::<4, _>(&mut moved, count, |row| given(row) & (row[2] != over.to));
    let left = retain::<4, _>(permits, count, |row| !given(row));
    give_all(permits, left, &moved, m, over.to)
}

// The givers that permit the taker the mode on an entry: a walk over the entry's rows.
pub fn givers(permits: &[u8], count: usize, taker: u8, entry: u8, mode: u8) -> ChangeSet
    requires permits_len { length permits.now ≡ permits_size }
    requires count_bound { count ≤ 1024 }
    ensures { (ps : List PermitRecord) → length ps ≡ count → permits.now ≡ permit_section ps → rising permit_key ps ≡ true → (k : ℕ) → members result k ≡ permitted ps k taker entry mode }
{
    let (rows, _) = permits.as_chunks::<4>();
    let from = place(permits, count, [entry, 0, 0]);
    let mut set = ChangeSet::empty();
    for &[on, giver, to, operations] in &rows[from..count] {
        let other = on != entry;
        if other {
            break;
        }
        let serves = ((to == taker) | (to == 0)) & contains(operations, mode);
        set = set.add_if(giver, serves);
    }
    set
}
