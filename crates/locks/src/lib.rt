// Locks in the lent section of a window: for each entry the set of its readers and the set of its writers.
// The contracts speak of every `held`, the lock of each change on each entry, that the section is the bytes of.
#![tactic(auto)]

ghost use Rattle.std.specs.Prelude.{◌≡◌, ℕ, ◌+◌, ◌≤◌, ◌<◌, length};
ghost use Rattle.rules.specs.Base.{any_below, put, put2};
ghost use Rattle.rules.specs.Sets.{everything, only, put_all};
ghost use Rattle.rules.specs.Effects.{move_held, released};
ghost use Rattle.layout.specs.Codec.{lock_section, locks_size};
ghost use Rattle.sets.specs.Members.{members, loaded};
ghost use Rattle.locks.specs.Held.{Modes, NoneFrom, in_mode, holding, clashes_with, holders_among, changed_on};
ghost use Rattle.locks.specs.Modes.{number_of, StandsFor};
ghost use Rattle.locks.specs.Entry.{LocksOf};

pub mod modes;

use crate::modes::Mode;
use layout::Locks;
use sets::ChangeSet;

// The changes that hold an entry in a mode.
pub fn held_in(locks: &[u8], entry: u8, mode: Mode) -> ChangeSet
    ensures { (held : ℕ → ℕ → ℕ) → locks.now ≡ lock_section held → (k : ℕ) → members result k ≡ in_mode (number_of mode) (held entry) k }
{
    let at = usize::from(entry) * Locks::ENTRY;
    match mode {
        Mode::Read => ChangeSet::load(locks, at),
        Mode::Write => ChangeSet::load(locks, at + Locks::SET),
    }
}

// The changes that hold an entry to read.
pub fn readers(locks: &[u8], entry: u8) -> ChangeSet
    ensures { (held : ℕ → ℕ → ℕ) → locks.now ≡ lock_section held → (k : ℕ) → members result k ≡ in_mode 1 (held entry) k }
{
    held_in(locks, entry, Mode::Read)
}

// The changes that hold an entry to write.
pub fn writers(locks: &[u8], entry: u8) -> ChangeSet
    ensures { (held : ℕ → ℕ → ℕ) → locks.now ≡ lock_section held → (k : ℕ) → members result k ≡ in_mode 2 (held entry) k }
{
    held_in(locks, entry, Mode::Write)
}

// The changes that hold an entry.
fn holders(locks: &[u8], entry: u8) -> ChangeSet
    ensures { (held : ℕ → ℕ → ℕ) → Modes held → locks.now ≡ lock_section held → (k : ℕ) → members result k ≡ holding (held entry) k }
{
    held_in(locks, entry, Mode::Read).unite(held_in(locks, entry, Mode::Write))
}

// The lock of a change on an entry.
pub fn mode(locks: &[u8], entry: u8, change: u8) -> u8
    requires { length locks.now ≡ locks_size }
    ensures { (held : ℕ → ℕ → ℕ) → Modes held → locks.now ≡ lock_section held → result ≡ held entry change }
{
    let at = usize::from(entry) * Locks::ENTRY + usize::from(change / 8);
    let i = change % 8;
    (locks[at] >> i) % 2 + (locks[at + Locks::SET] >> i) % 2 * 2
}

// The mode of that lock, where there is one.
fn lock_of(locks: &[u8], entry: u8, change: u8) -> Option<Mode>
    requires { length locks.now ≡ locks_size }
    ensures { (held : ℕ → ℕ → ℕ) → Modes held → locks.now ≡ lock_section held → StandsFor result (held entry change) }
{
    Mode::of(mode(locks, entry, change))
}

// The changes whose lock on an entry clashes with a mode, 1 or 2.
pub fn clashing(locks: &[u8], entry: u8, mode: u8) -> ChangeSet
    ensures { (held : ℕ → ℕ → ℕ) → Modes held → 0 < mode → locks.now ≡ lock_section held → (k : ℕ) → members result k ≡ clashes_with mode (held entry) k }
{
    let write = Mode::Write as u8;
    if mode == write {
        holders(locks, entry)
    } else {
        held_in(locks, entry, Mode::Write)
    }
}

// One entry's locks.
#[derive(Clone, Copy)]
struct EntryLocks {
    readers: ChangeSet,
    writers: ChangeSet,
}

impl EntryLocks {
    // Those that the section has.
    fn load(locks: &[u8], entry: u8) -> EntryLocks
        ensures { (held : ℕ → ℕ → ℕ) → locks.now ≡ lock_section held → LocksOf result (held entry) }
    {
        EntryLocks {
            readers: held_in(locks, entry, Mode::Read),
            writers: held_in(locks, entry, Mode::Write),
        }
    }

    // Puts them in the place of those that the section has.
    fn store(self, locks: &mut [u8], entry: u8)
        ensures { (held : ℕ → ℕ → ℕ) (row : ℕ → ℕ) → locks.old ≡ lock_section held → LocksOf self row → locks.new ≡ lock_section (put held entry row) }
    {
        let at = usize::from(entry) * Locks::ENTRY;
        self.readers.store(locks, at);
        self.writers.store(locks, at + Locks::SET);
    }

    // With a change's lock in a mode, or with none.
    fn with_mode(self, change: u8, mode: Option<Mode>) -> EntryLocks
        ensures { (row : ℕ → ℕ) (v : ℕ) → StandsFor mode v → LocksOf self row → LocksOf result (put row change v) }
    {
        let readers = self.readers.without(change);
        let writers = self.writers.without(change);
        match mode {
            Some(Mode::Read) => EntryLocks {
                readers: readers.add(change),
                writers,
            },
            Some(Mode::Write) => EntryLocks {
                readers,
                writers: writers.add(change),
            },
            None => EntryLocks { readers, writers },
        }
    }
}

// Gives a change a lock on an entry in a mode, 1 or 2, in the place of the one that it has.
pub fn grant(locks: &mut [u8], entry: u8, change: u8, mode: u8)
    ensures { (held : ℕ → ℕ → ℕ) → locks.old ≡ lock_section held → locks.new ≡ lock_section (put2 held entry change mode) }
{
    let before = EntryLocks::load(locks, entry);
    let after = before.with_mode(change, Mode::of(mode));
    after.store(locks, entry);
}

// Takes the locks of a set of changes from an entry.
fn release_entry(locks: &mut [u8], entry: u8, ended: ChangeSet)
    ensures { (held : ℕ → ℕ → ℕ) → locks.old ≡ lock_section held → locks.new ≡ lock_section (changed_on (only entry) (put_all (members ended) 0) held) }
{
    let before = EntryLocks::load(locks, entry);
    let after = EntryLocks {
        readers: before.readers.minus(ended),
        writers: before.writers.minus(ended),
    };
    after.store(locks, entry);
}

// Whether a change of a set, given as its 32 bytes, holds the entry whose locks stand at a place. No early way out: the or of the bytes.
fn touched(locks: &[u8], at: usize, ended: &[u8; Locks::SET]) -> bool
    requires { at + 64 ≤ length locks.now }
    ensures { result ≡ any_below 256 (holders_among locks.now at ended.now) }
{
    let mut acc: u8 = 0;
    for byte in 0..Locks::SET {
        acc |= (locks[at + byte] | locks[at + Locks::SET + byte]) & ended[byte];
    }
    acc != 0
}

// Takes the locks of a set of changes, given also as its 32 bytes, from an entry. One that none of them holds is passed over before a set is loaded.
fn release_touched(locks: &mut [u8], entry: u8, bytes: &[u8; Locks::SET], ended: ChangeSet)
    requires { locks_size ≤ length locks.old }
    ensures { (held : ℕ → ℕ → ℕ) → ((k : ℕ) → k < 256 → loaded bytes.now 0 k ≡ members ended k) → locks.old ≡ lock_section held → locks.new ≡ lock_section (changed_on (only entry) (put_all (members ended) 0) held) }
{
    if touched(locks, usize::from(entry) * Locks::ENTRY, bytes) {
        release_entry(locks, entry, ended);
    }
}

// Takes the locks of a set of changes from every entry. Fewer bytes than a section stay as they are.
pub fn release(locks: &mut [u8], entries: usize, ended: ChangeSet)
    requires { entries ≤ 256 }
    ensures { (held : ℕ → ℕ → ℕ) → NoneFrom entries held → locks.old ≡ lock_section held → locks.new ≡ lock_section (released (members ended) held) }
{
    let short = locks.len() < Locks::SIZE;
    if short {
        return;
    }
    let mut bytes = [0u8; Locks::SET];
    ended.store(&mut bytes, 0);
    for entry in 0..entries {
        release_touched(locks, entry as u8, &bytes, ended);
    }
}

// Moves a change's lock on an entry to another change; it meets one already held as the greater.
pub fn hand_over(locks: &mut [u8], entry: u8, from: u8, to: u8)
    requires { length locks.old ≡ locks_size }
    ensures { (held : ℕ → ℕ → ℕ) → Modes held → locks.old ≡ lock_section held → locks.new ≡ lock_section (move_held from to (only entry) held) }
{
    let given = lock_of(locks, entry, from);
    if given.is_none() {
        return;
    }
    let most = given.max(lock_of(locks, entry, to));
    let before = EntryLocks::load(locks, entry);
    let after = before.with_mode(from, None).with_mode(to, most);
    after.store(locks, entry);
}

// The same on every entry.
pub fn hand_over_all(locks: &mut [u8], entries: usize, from: u8, to: u8)
    requires { (length locks.old ≡ locks_size) × (entries ≤ 256) }
    ensures { (held : ℕ → ℕ → ℕ) → Modes held → NoneFrom entries held → locks.old ≡ lock_section held → locks.new ≡ lock_section (move_held from to everything held) }
{
    for i in 0..entries {
        hand_over(locks, i as u8, from, to);
    }
}
