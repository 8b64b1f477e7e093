// The log in its section: records appended, dropped, handed over and withdrawn.
#![tactic(auto)]

ghost use Rattle.std.specs.Prelude.{◌≡◌, cond, List, ℕ, ◌+◌, ◌*◌, ◌^◌, ◌≤◌, ◌<◌, length, get_or, set};
ghost use Rattle.rules.specs.Window.{LogRecord};
ghost use Rattle.rules.specs.Effects.{add_record, moved_record, move_log, unowned, undo, records_left};
ghost use Rattle.layout.specs.Codec.{no_record, values_size, log_size, record_bytes, value_section, log_section};
ghost use Rattle.layout.specs.Records.{Tabled};
ghost use Rattle.cells.specs.Part.{part, patch};
ghost use Rattle.words.specs.Members.{words_have};
ghost use Rattle.sets.specs.Members.{members};
ghost use Rattle.scope.specs.Entries.{entries_of};
ghost use Rattle.change_log.specs.Undone.{IsRecord, Undone};

use cells::{read_u32, write_u32};
use layout::Log;
use places::store_value;
use rows::retain;
use scope::HandOver;
use sets::ChangeSet;
use words::{among, insert};

// A record of the log.
#[derive(Clone, Copy)]
struct Record {
    owner: u8,
    entry: u8,
    before: u32,
}

// Record i.
fn record_at(log: &[u8], i: usize) -> Record
    requires { i * 6 + 6 ≤ length log.now }
    ensures { (q : LogRecord) → part log.now (i * 6) 6 ≡ record_bytes q → IsRecord result q }
{
    let at = i * Log::RECORD;
    Record {
        owner: log[at],
        entry: log[at + 1],
        before: read_u32(log, at + 2),
    }
}

// A record more, after the others. A log is the bytes that a window lends, and its count a figure of another section: an array's type, or
// one value of both, would be no plainer, since each caller would have to test or wrap what it cuts from the window.
pub fn append(log: &mut [u8], count: usize, owner: u8, entry: u8, before: u32)
    requires log_len { length log.old ≡ log_size }
    requires count_bound { count < 2048 }
    ensures { (l : List LogRecord) → length l ≡ count → log.old ≡ log_section l → log.new ≡ log_section (add_record owner entry before l) }
{
    let at = count * Log::RECORD;
    log[at] = owner;
    log[at + 1] = entry;
    write_u32(log, at + 2, before);
}

// The records of ended changes are dropped and the others close up in order. What comes back is how many are left.
pub fn drop_owned(log: &mut [u8], count: usize, ended: ChangeSet) -> usize
    requires log_len { length log.old ≡ log_size }
    requires count_bound { count ≤ 2048 }
    ensures { (l : List LogRecord) → length l ≡ count → log.old ≡ log_section l → Tabled log_section (unowned (members ended) l) result log.new }
{
    let words = ended.words;
    retain::<{ Log::RECORD }, _>(log, count, |record| !among(&words, record[0]))
}

// Record i goes over to another owner, where the hand-over takes it.
fn hand_record(log: &mut [u8], i: usize, over: HandOver)
    requires log_len { length log.old ≡ log_size }
    requires i_bound { i < 2048 }
    ensures { (l : List LogRecord) → i < length l → log.old ≡ log_section l → log.new ≡ log_section (set l i (moved_record over.from over.to (entries_of over.scope) (get_or l i no_record))) }
{
    let at = i * Log::RECORD;
    let goes = over.takes(log[at], log[at + 1]);
    if goes {
        log[at] = over.to;
    }
}

// The records of one owner go over to another: those on the entries that are named.
pub fn hand_over(log: &mut [u8], count: usize, over: HandOver)
    requires log_len { length log.old ≡ log_size }
    requires count_bound { count ≤ 2048 }
    ensures { (l : List LogRecord) → length l ≡ count → log.old ≡ log_section l → log.new ≡ log_section (move_log over.from over.to (entries_of over.scope) l) }
{
    for next in 0..count {
        hand_record(log, next, over);
    }
}

// A record gives its entry the value before, where its owner has ended and no older record did so.
// What comes back is whether it stays in the log: its owner lives, and its entry has not been given a value.
fn undo_record(values: &mut [u8], read: Record, ended: &[u64; 4], undone: &mut [u64; 4]) -> bool
    requires { length values.old ≡ values_size }
    ensures { (q : LogRecord) → IsRecord read q → Undone (words_have ended.now) q (words_have undone.old) values.old result (words_have undone.new) values.new }
{
    if among(undone, read.entry) {
        return false;
    }
    if !among(ended, read.owner) {
        return true;
    }
    store_value(values, read.entry, read.before);
    insert(undone, read.entry);
    false
}

// A record's six bytes, from a place to a place. All are read before any is stored, so that they move as whole numbers.
fn move_record(log: &mut [u8], i: usize, j: usize)
    requires i_in_bounds { i * 6 + 6 ≤ length log.old }
    requires j_le_i { j ≤ i }
    ensures { log.new ≡ patch log.old (j * 6) (part log.old (i * 6) 6) }
{
    let mut record = [0; Log::RECORD];
    record.copy_from_slice(&log[i * Log::RECORD..i * Log::RECORD + Log::RECORD]);
    log[j * Log::RECORD..j * Log::RECORD + Log::RECORD].copy_from_slice(&record);
}

// The records of ended changes are withdrawn: on each entry the oldest of them gives the value, and leaves the log with every later one there.
// What comes back is how many are left. A loop, since after `retain` nothing would be known of the values that its test writes.
pub fn withdraw(values: &mut [u8], log: &mut [u8], count: usize, ended: ChangeSet) -> usize
    requires values_len { length values.old ≡ values_size }
    requires log_len { length log.old ≡ log_size }
    requires count_bound { count ≤ 2048 }
    ensures by_index { (v : ℕ → ℕ) (l : List LogRecord) → length l ≡ count → ((k : ℕ) → (get_or l k no_record).before < 2 ^ 32) → values.old ≡ value_section v → log.old ≡ log_section l → values.new ≡ value_section (undo (members ended) l v) }
    ensures tabled { (l : List LogRecord) → length l ≡ count → log.old ≡ log_section l → Tabled log_section (records_left (members ended) l) result log.new }
{
    let words = ended.words;
    let mut undone = [0u64; 4];
    let mut left = 0;
    for at in 0..count {
        let read = record_at(log, at);
        let stays = undo_record(values, read, &words, &mut undone);
        if stays {
            move_record(log, at, left);
            left += 1;
        }
    }
    log[left * Log::RECORD..count * Log::RECORD].fill(0);
    left
}
