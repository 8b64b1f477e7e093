// An entry with many permits: those to anybody by sets, and those that name a writer past blocks without its number.
#![tactic(auto)]

ghost use Rattle.std.specs.Prelude.{◌≡◌, ◌&&◌, ◌||◌, ℕ, ◌+◌, ◌*◌, ◌≤◌, eqb, length};
ghost use Rattle.std.specs.List.{flat_map};
ghost use Rattle.rules.specs.Base.{any_below};
ghost use Rattle.layout.specs.Records.{permit_at};
ghost use Rattle.cells.specs.Part.{byte_is};
ghost use Rattle.sets.specs.Members.{members};
ghost use Rattle.beside.specs.Permits.{any_of};
ghost use Rattle.beside.specs.Beside.{entry_fits};
ghost use Rattle.few_permits.specs.Rows.{permit_row};
ghost use Rattle.many_permits.specs.Named.{permits_anybody, names, unserved, blocker_left};

use beside::{contains, contains_held, lowest_blocker};
use few_permits::Holders;
use layout::Permits;
use sets::ChangeSet;

// The permits that are passed over at once. An entry with fewer has each looked at.
pub const BLOCK: usize = 16;

// In a block with the number looked for they are passed over by so many.
const PART: usize = 4;

// The givers of the permits to anybody: of those that contain read, and of those that contain write.
#[derive(Clone, Copy)]
struct Givers {
    reading: ChangeSet,
    writing: ChangeSet,
}

// The set, with the members of another where a test passed.
fn unite_if(s: ChangeSet, other: ChangeSet, test: bool) -> ChangeSet
    ensures { (k : ℕ) → members result k ≡ members s k || members other k && test }
{
    if test {
        return s.unite(other);
    }
    s
}

// Whether a byte is among those of a block of permits. No early way out and every byte alike: the or of the tests.
fn in_block(block: &[[u8; Permits::RECORD]], byte: u8) -> bool
    ensures { result ≡ any_below (length block.now * 4) (byte_is (flat_map (λ row. row) block.now) 0 byte) }
{
    let mut found = false;
    for b in block.as_flattened() {
        found = found | (*b == byte);
    }
    found
}

// The set, with the giver of a permit where it is to anybody and contains a mode.
fn add_giver(s: ChangeSet, permit: &[u8; Permits::RECORD], mode: u8) -> ChangeSet
    ensures { (k : ℕ) → members result k ≡ members s k || permits_anybody mode k (permit_at permit.now 0) }
{
    let [_, giver, taker, operations] = *permit;
    let contained = contains(operations, mode);
    s.add_if(giver, (taker == 0) & contained)
}

// The givers of the permits to anybody that contain a mode.
fn givers_to_anybody(permits: &[[u8; Permits::RECORD]], mode: u8) -> ChangeSet
    ensures { (k : ℕ) → members result k ≡ any_of (length permits.now) (permit_row permits.now) (permits_anybody mode k) }
{
    let mut s = ChangeSet::empty();
    for permit in permits {
        s = add_giver(s, permit, mode);
    }
    s
}

// The set, with whom a permit lets stand beside a writer by naming the two: the taker, or the giver. In line, as the next one is, since
// a set by value is copied at each call.
#[inline(always)]
fn add_named(
    s: ChangeSet,
    permit: &[u8; Permits::RECORD],
    holders: &Holders,
    writer: u8,
) -> ChangeSet
    ensures { (k : ℕ) → members result k ≡ members s k || names (members holders.now.readers) (members holders.now.writers) writer k (permit_at permit.now 0) }
{
    let [_, giver, taker, operations] = *permit;
    if (giver == writer) | (taker == writer) {
        let reads = holders.readers.has(taker);
        let writes = holders.writers.has(taker);
        let out = (giver == writer) & contains_held(operations, reads, writes);
        let into = (taker == writer) & contains(operations, 2);
        return s.add_if(taker, out).add_if(giver, into);
    }
    s
}

// The set, with whom each of some permits lets stand beside a writer by naming the two.
#[inline(always)]
fn add_each_named(
    s: ChangeSet,
    permits: &[[u8; Permits::RECORD]],
    holders: &Holders,
    writer: u8,
) -> ChangeSet
    ensures { (k : ℕ) → members result k ≡ members s k || any_of (length permits.now) (permit_row permits.now) (names (members holders.now.readers) (members holders.now.writers) writer k) }
{
    let mut s = s;
    for permit in permits {
        s = add_named(s, permit, holders, writer);
    }
    s
}

// The same for a part of a block, which is passed over where it is without the writer's number.
fn add_part(
    s: ChangeSet,
    part: &[[u8; Permits::RECORD]],
    holders: &Holders,
    writer: u8,
) -> ChangeSet
    ensures { (k : ℕ) → members result k ≡ members s k || any_of (length part.now) (permit_row part.now) (names (members holders.now.readers) (members holders.now.writers) writer k) }
{
    let present = in_block(part, writer);
    if present {
        return add_each_named(s, part, holders, writer);
    }
    s
}

// The same for each part of a block.
fn add_parts(
    s: ChangeSet,
    block: &[[u8; Permits::RECORD]],
    holders: &Holders,
    writer: u8,
) -> ChangeSet
    ensures { (k : ℕ) → members result k ≡ members s k || any_of (length block.now) (permit_row block.now) (names (members holders.now.readers) (members holders.now.writers) writer k) }
{
    let (parts, last) = block.as_chunks::<PART>();
    let mut s = s;
    for part in parts {
        s = add_part(s, part, holders, writer);
    }
    add_each_named(s, last, holders, writer)
}

// The same for a block of permits, which is passed over where it is without the writer's number.
fn add_block(
    s: ChangeSet,
    block: &[[u8; Permits::RECORD]],
    holders: &Holders,
    writer: u8,
) -> ChangeSet
    ensures { (k : ℕ) → members result k ≡ members s k || any_of (length block.now) (permit_row block.now) (names (members holders.now.readers) (members holders.now.writers) writer k) }
{
    let present = in_block(block, writer);
    if present {
        return add_parts(s, block, holders, writer);
    }
    s
}

// Whom the permits let stand beside a writer by naming the two.
fn named(permits: &[[u8; Permits::RECORD]], holders: &Holders, writer: u8) -> ChangeSet
    ensures { (k : ℕ) → members result k ≡ any_of (length permits.now) (permit_row permits.now) (names (members holders.now.readers) (members holders.now.writers) writer k) }
{
    let (blocks, last) = permits.as_chunks::<BLOCK>();
    let mut s = ChangeSet::empty();
    for block in blocks {
        s = add_block(s, block, holders, writer);
    }
    add_each_named(s, last, holders, writer)
}

// The other holders whom no permit to anybody lets stand beside a writer.
fn unserved(holders: &Holders, givers: &Givers, writer: u8) -> ChangeSet
    ensures { (k : ℕ) → members result k ≡ unserved (members holders.now.readers) (members holders.now.writers) (members givers.now.reading) (members givers.now.writing) writer k }
{
    let with_readers = unite_if(givers.writing, holders.readers, givers.reading.has(writer));
    let served = unite_if(with_readers, holders.writers, givers.writing.has(writer));
    let all = holders.readers.unite(holders.writers);
    all.without(writer).minus(served)
}

// Whether no other holder is without a permit from or to a writer.
fn writer_fits(
    permits: &[[u8; Permits::RECORD]],
    holders: &Holders,
    givers: &Givers,
    writer: u8,
) -> bool
    ensures { result ≡ eqb (blocker_left (length permits.now) (permit_row permits.now) (members holders.now.readers) (members holders.now.writers) (members givers.now.reading) (members givers.now.writing) writer) 0 }
{
    let left = unserved(holders, givers, writer);
    if left.is_empty() {
        return true;
    }
    let named = named(permits, holders, writer);
    lowest_blocker(left, named, writer).is_none()
}

// Whether nobody is in the way of any writer, with the givers of the permits to anybody found first.
pub fn many_fit(permits: &[[u8; Permits::RECORD]], holders: &Holders) -> bool
    ensures { result ≡ entry_fits (length permits.now) (permit_row permits.now) (members holders.now.readers) (members holders.now.writers) }
{
    let reading = givers_to_anybody(permits, 1);
    let writing = givers_to_anybody(permits, 2);
    let givers = Givers { reading, writing };
    holders.each_writer(|writer| writer_fits(permits, holders, &givers, writer))
}
