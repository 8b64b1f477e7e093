// Whether a section of lent bytes is that of a sound window: a function for each, but for the line, permits and ties.
#![tactic(auto)]

ghost use Rattle.std.specs.Prelude.{◌≡◌, true, ◌↔◌, ℕ, ◌+◌, ◌*◌, ◌≤◌, ◌<◌, length};
ghost use Rattle.rules.specs.Base.{all_below};
ghost use Rattle.rules.specs.Sets.{Set};
ghost use Rattle.layout.specs.Codec.{head_size, values_size, changes_size, locks_size, log_size};
ghost use Rattle.cells.specs.Part.{part};
ghost use Rattle.cells.specs.Num.{num};
ghost use Rattle.cells.specs.Bits.{bytes_have};
ghost use Rattle.sets.specs.Members.{members};
ghost use Rattle.sections.specs.Fits.{change_fits, next_fits, writes, row_fits, record_fits};
ghost use Rattle.sections.specs.Sections.{HeadSound, ValuesSound, ChangesSound, LocksSound, LogSound};

use cells::{all_zero, read_u16};
use layout::{Changes, Entries, Header, Locks, Log, Permits, Ties};
use sets::ChangeSet;

// Figure k of the header.
fn figure(head: &[u8], k: usize) -> usize
    requires { k * 2 + 2 ≤ length head.now }
    ensures { result ≡ num (part head.now (k * 2) 2) }
{
    usize::from(read_u16(head, k * 2))
}

// Every figure is in its range, and the rest of the header is 0.
pub fn header(head: &[u8]) -> bool
    requires { length head.now ≡ head_size }
    ensures { result ≡ true ↔ HeadSound head.now }
{
    if !(1..=Entries::MOST).contains(&figure(head, 0)) {
        return false;
    }
    if Changes::MOST < figure(head, 1) {
        return false;
    }
    if Log::MOST < figure(head, 2) {
        return false;
    }
    if Permits::MOST < figure(head, 3) {
        return false;
    }
    if Ties::MOST < figure(head, 4) {
        return false;
    }
    if Changes::MOST < figure(head, 5) {
        return false;
    }
    all_zero(head, 12, Header::SIZE)
}

// The places of no entry are 0.
pub fn values(values: &[u8], entries: usize) -> bool
    requires values_len { length values.now ≡ values_size }
    requires entries_bound { entries ≤ 256 }
    ensures { result ≡ true ↔ ValuesSound values.now entries }
{
    all_zero(values, entries * 4, Entries::SIZE)
}

// A change's place: a status from 1 to 5, a lower parent, and two bytes that are 0.
fn change(changes: &[u8], c: usize) -> bool
    requires changes_len { length changes.now ≡ changes_size }
    requires c_bound { c < 256 }
    ensures { result ≡ change_fits changes.now c }
{
    let at = c * 4;
    let status = changes[at];
    (1..=5).contains(&status)
        & (usize::from(changes[at + 1]) < c)
        & (changes[at + 2] == 0)
        & (changes[at + 3] == 0)
}

// The places of the changes that there are.
fn given_changes(changes: &[u8], given: usize) -> bool
    requires changes_len { length changes.now ≡ changes_size }
    requires given_bound { given < 256 }
    ensures { result ≡ all_below given (next_fits changes.now) }
{
    for c in 0..given {
        if !change(changes, c + 1) {
            return false;
        }
    }
    true
}

// Statuses in their range, parents lower than their children, and the places of no change 0.
pub fn changes(changes: &[u8], given: usize) -> bool
    requires changes_len { length changes.now ≡ changes_size }
    requires given_bound { given < 256 }
    ensures { result ≡ true ↔ ChangesSound changes.now given }
{
    if !all_zero(changes, 0, 4) {
        return false;
    }
    if !given_changes(changes, given) {
        return false;
    }
    all_zero(changes, given * 4 + 4, Changes::SIZE)
}

// An entry's locks: no change both reads and writes, and each is among the live ones' bytes. No early way out: the or of what does not fit.
fn row(locks: &[u8], e: usize, live: &[u8; Locks::SET]) -> bool
    requires locks_len { length locks.now ≡ locks_size }
    requires e_bound { e < 256 }
    ensures { result ≡ row_fits locks.now (bytes_have live.now 0) e }
{
    let at = e * Locks::ENTRY;
    let mut acc: u8 = 0;
    for i in 0..Locks::SET {
        let r = locks[at + i];
        let w = locks[at + Locks::SET + i];
        acc |= (r & w) | ((r | w) & !live[i]);
    }
    acc == 0
}

// The locks on the entries that there are, held against the live ones' bytes.
fn rows_against(locks: &[u8], entries: usize, live: &[u8; Locks::SET]) -> bool
    requires locks_len { length locks.now ≡ locks_size }
    requires entries_bound { entries ≤ 256 }
    ensures { result ≡ all_below entries (row_fits locks.now (bytes_have live.now 0)) }
{
    for e in 0..entries {
        if !row(locks, e, live) {
            return false;
        }
    }
    true
}

// The same, held against a set: its bytes are laid out once, as an entry's are.
fn rows(locks: &[u8], entries: usize, live: ChangeSet) -> bool
    requires locks_len { length locks.now ≡ locks_size }
    requires entries_bound { entries ≤ 256 }
    ensures { result ≡ all_below entries (row_fits locks.now (members live)) }
{
    let mut bytes = [0u8; Locks::SET];
    live.store(&mut bytes, 0);
    rows_against(locks, entries, &bytes)
}

// Locks of live changes on entries that there are, and 0 on the others.
pub fn locks(locks: &[u8], entries: usize, live: ChangeSet) -> bool
    requires locks_len { length locks.now ≡ locks_size }
    requires entries_bound { entries ≤ 256 }
    ensures { result ≡ true ↔ LocksSound locks.now entries (members live) }
{
    if !rows(locks, entries, live) {
        return false;
    }
    all_zero(locks, entries * Locks::ENTRY, Locks::SIZE)
}

// Whether a change's bit stands among an entry's writers.
fn is_writer(locks: &[u8], e: u8, c: u8) -> bool
    requires { length locks.now ≡ locks_size }
    ensures { result ≡ writes locks.now e c }
{
    let writers = usize::from(e) * Locks::ENTRY + Locks::SET;
    (locks[writers + usize::from(c / 8)] >> (c % 8)) % 2 == 1
}

// The log record at place j: the owner among the entry's writers.
fn record_at(log: &[u8], j: usize, locks: &[u8]) -> bool
    requires j_in_bounds { j * 6 + 6 ≤ length log.now }
    requires locks_len { length locks.now ≡ locks_size }
    ensures { result ≡ record_fits log.now locks.now j }
{
    let at = j * Log::RECORD;
    let owner = log[at];
    let entry = log[at + 1];
    is_writer(locks, entry, owner)
}

// The log records that stand.
fn standing_records(log: &[u8], count: usize, locks: &[u8]) -> bool
    requires log_len { length log.now ≡ log_size }
    requires count_bound { count ≤ 2048 }
    requires locks_len { length locks.now ≡ locks_size }
    ensures { result ≡ all_below count (record_fits log.now locks.now) }
{
    for i in 0..count {
        if !record_at(log, i, locks) {
            return false;
        }
    }
    true
}

// Each owner holding the write lock on its record's entry, and the unused places 0. Beside sound locks, owners then live.
pub fn log(log: &[u8], count: usize, locks: &[u8]) -> bool
    requires log_len { length log.now ≡ log_size }
    requires count_bound { count ≤ 2048 }
    requires locks_len { length locks.now ≡ locks_size }
    ensures { (entries : ℕ) (lives : Set) (z : LocksSound locks.now entries lives) → (result ≡ true ↔ LogSound log.now count entries lives z.held) }
{
    if !standing_records(log, count, locks) {
        return false;
    }
    all_zero(log, count * Log::RECORD, Log::SIZE)
}
