// Whether each clashing pair of locks has a permit, in the lent sections of locks and of permits.
// A clashing pair has a writer in it: each writer of an entry is held against the entry's other holders.
#![tactic(auto)]

ghost use Rattle.std.specs.Prelude.{◌≡◌, ℕ, ◌+◌, ◌≤◌, length};
ghost use Rattle.rules.specs.Base.{any_below};
ghost use Rattle.rules.specs.Window.{Window};
ghost use Rattle.rules.specs.Locks.{clashes_permitted};
ghost use Rattle.layout.specs.Codec.{locks_size, permits_size, lock_section};
ghost use Rattle.sets.specs.Members.{loaded};
ghost use Rattle.locks.specs.Held.{in_mode};
ghost use Rattle.beside.specs.Beside.{entry_fits};
ghost use Rattle.few_permits.specs.Rows.{permit_row};
ghost use Rattle.clashes.specs.LocksAndPermits.{LocksAndPermits};
ghost use Rattle.clashes.specs.Permits.{from_entry, FirstOf};
ghost use Rattle.clashes.specs.Contested.{contested};

use cells::run_zero;
use few_permits::{Holders, few_fit};
use layout::{Locks, Permits};
use many_permits::{BLOCK, many_fit};

// Whether the set in the 32 bytes at a place has a member.
fn any_held(locks: &[u8], at: usize) -> bool
    requires { at + 32 ≤ length locks.now }
    ensures { result ≡ any_below 256 (loaded locks.now at) }
{
    !run_zero(locks, at, Locks::SET)
}

// Whether an entry has a writer and another holder. A reader is another than any writer.
fn contested(locks: &[u8], entry: u8) -> bool
    requires { length locks.now ≡ locks_size }
    ensures { (held : ℕ → ℕ → ℕ) → locks.now ≡ lock_section held → result ≡ contested (in_mode 1 (held entry)) (in_mode 2 (held entry)) }
{
    let at = entry as usize * Locks::ENTRY;
    if !any_held(locks, at + Locks::SET) {
        return false;
    }
    if any_held(locks, at) {
        return true;
    }
    !locks::writers(locks, entry).rest().is_empty()
}

// The place of the first permit from `start` on whose entry is not below a number; the count where there is none. One by one and not by
// `partition_point`, since permits are known to rise only in a sound window.
fn first_from(permits: &[[u8; Permits::RECORD]], start: usize, entry: usize) -> usize
    requires { start ≤ length permits.now }
    ensures { FirstOf (from_entry entry) (permit_row permits.now) (length permits.now) start result }
{
    for place in start..permits.len() {
        if entry <= permits[place][0] as usize {
            return place;
        }
    }
    permits.len()
}

// Whether each clashing pair of an entry has a permit among the entry's own.
fn entry_permitted(locks: &[u8], entry: u8, permits: &[[u8; Permits::RECORD]]) -> bool
    ensures { (held : ℕ → ℕ → ℕ) → locks.now ≡ lock_section held → result ≡ entry_fits (length permits.now) (permit_row permits.now) (in_mode 1 (held entry)) (in_mode 2 (held entry)) }
{
    let readers = locks::readers(locks, entry);
    let writers = locks::writers(locks, entry);
    let holders = Holders { readers, writers };
    let few = permits.len() < BLOCK;
    if few {
        return few_fit(permits, &holders);
    }
    many_fit(permits, &holders)
}

// Whether each clashing pair of locks has a permit from one of the two to the other, or to anybody, that contains the taker's held mode.
// The sections are slices with their lengths in clauses, since callers cut them from a window, and the layout has the counts in the header.
pub fn all_permitted(locks: &[u8], entries: usize, permits: &[u8], count: usize) -> bool
    requires locks_len { length locks.now ≡ locks_size }
    requires permits_len { length permits.now ≡ permits_size }
    requires entries_bound { entries ≤ 256 }
    requires count_bound { count ≤ 1024 }
    ensures { (W : Window) → LocksAndPermits locks.now permits.now entries count W → result ≡ clashes_permitted W }
{
    let used = &permits[..count * Permits::RECORD];
    let (rows, _) = used.as_chunks::<4>();
    let mut next: usize = 0;
    for entry in 0..entries {
        let e = entry as u8;
        if contested(locks, e) {
            let from = first_from(rows, next, entry);
            let to = first_from(rows, from, entry + 1);
            if !entry_permitted(locks, e, &rows[from..to]) {
                return false;
            }
            next = to;
        }
    }
    true
}
