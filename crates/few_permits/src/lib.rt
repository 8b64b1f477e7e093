// An entry with few permits: for each writer one pass over them notes whom they let stand beside it.
#![tactic(auto)]

ghost use Rattle.std.specs.Prelude.{◌≡◌, ◌≢◌, ◌&&◌, ◌||◌, ℕ, ◌+◌, ◌*◌, ◌≤◌, eqb, length};
ghost use Rattle.layout.specs.Records.{permit_at};
ghost use Rattle.sets.specs.Members.{members};
ghost use Rattle.beside.specs.Permits.{any_of};
ghost use Rattle.beside.specs.Beside.{beside, writer_blocker, entry_fits};
ghost use Rattle.few_permits.specs.Each.{EachOf};
ghost use Rattle.few_permits.specs.Rows.{permit_row};

use beside::{contains, contains_held, lowest_blocker};
use layout::Permits;
use sets::ChangeSet;
use words::{among, insert, insert_all};

// Those who hold an entry.
#[derive(Clone, Copy)]
pub struct Holders {
    pub readers: ChangeSet,
    pub writers: ChangeSet,
}

impl Holders {
    // Whether a test passes for each writer. The next one is looked for at the end of a turn, and not taken out by `pop_first` at its
    // beginning: a window with two writers on each entry is tested faster so.
    pub fn each_writer<F: Fn(u8) -> bool>(&self, test: F) -> bool
        requires { F.IsAlwaysCallable test }
        ensures { EachOf (F.post test) (members self.now.writers) result }
    {
        let mut left = self.writers;
        let mut lowest = left.first();
        while let Some(writer) = lowest {
            if !test(writer) {
                return false;
            }
            left = left.rest();
            lowest = left.first();
        }
        true
    }
}

// The members of a set are noted where a test passed.
fn note_set(noted: &mut ChangeSet, set: &ChangeSet, test: bool)
    ensures { (k : ℕ) → members noted.new k ≡ members noted.old k || members set.now k && test }
{
    if test {
        insert_all(&mut noted.words, &set.words);
    }
}

// A change is noted where a test passed.
fn note_one(noted: &mut ChangeSet, c: u8, test: bool)
    ensures { (k : ℕ) → members noted.new k ≡ members noted.old k || eqb c k && test }
{
    if test {
        insert(&mut noted.words, c);
    }
}

// Those whom a permit lets stand beside a writer are noted: the taker, every holder that it serves where anybody may take it, or the
// giver. Whether the writer itself is noted is left open. The sets are lent: none is copied for a permit.
fn note(noted: &mut ChangeSet, permit: &[u8; Permits::RECORD], holders: &Holders, writer: u8)
    ensures { (k : ℕ) → k ≢ writer → members noted.new k ≡ members noted.old k || beside (members holders.now.readers) (members holders.now.writers) writer k (permit_at permit.now 0) }
{
    let [_, giver, taker, operations] = *permit;
    let write = contains(operations, 2);
    if giver == writer {
        if taker == 0 {
            note_set(noted, &holders.readers, contains(operations, 1));
            note_set(noted, &holders.writers, write);
            return;
        }
        let reads = among(&holders.readers.words, taker);
        let writes = among(&holders.writers.words, taker);
        note_one(noted, taker, contains_held(operations, reads, writes));
        return;
    }
    note_one(noted, giver, ((taker == writer) | (taker == 0)) & write);
}

// Those whom the permits let stand beside a writer. Whether the writer itself is among them is left open. The set is given back and
// not lent by the caller: it would be copied there.
fn note_all(permits: &[[u8; Permits::RECORD]], holders: &Holders, writer: u8) -> ChangeSet
    ensures { (k : ℕ) → k ≢ writer → members result k ≡ any_of (length permits.now) (permit_row permits.now) (beside (members holders.now.readers) (members holders.now.writers) writer k) }
{
    let mut noted = ChangeSet::empty();
    for permit in permits {
        note(&mut noted, permit, holders, writer);
    }
    noted
}

// Whether no other holder, reader or writer, is without a permit from or to a writer.
fn writer_fits(permits: &[[u8; Permits::RECORD]], holders: &Holders, writer: u8) -> bool
    ensures { result ≡ eqb (writer_blocker (length permits.now) (permit_row permits.now) (members holders.now.readers) (members holders.now.writers) writer) 0 }
{
    let noted = note_all(permits, holders, writer);
    let all = holders.readers.unite(holders.writers);
    lowest_blocker(all, noted, writer).is_none()
}

// Whether nobody is in the way of any writer: one pass over the permits for each of them.
pub fn few_fit(permits: &[[u8; Permits::RECORD]], holders: &Holders) -> bool
    ensures { result ≡ entry_fits (length permits.now) (permit_row permits.now) (members holders.now.readers) (members holders.now.writers) }
{
    holders.each_writer(|writer| writer_fits(permits, holders, writer))
}
