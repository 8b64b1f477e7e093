// The test for a clash: who is in the way of a change, by who has permitted; and whether a permit's operations contain a mode.
#![tactic(auto)]

ghost use Rattle.std.specs.Prelude.{◌≡◌, ◌<◌};
ghost use Rattle.std.specs.Option.{unwrap_or, IfSome};
ghost use Rattle.rules.specs.Base.{lowest_or_zero};
ghost use Rattle.rules.specs.Locks.{contains, blocking};
ghost use Rattle.sets.specs.Members.{members};
ghost use Rattle.beside.specs.Beside.{contains_held};

use sets::ChangeSet;
use words::insert;

// The operations of a permit as its byte has them: read, write, or both. A byte, since the C interface and the windows have it so.
const READ: u8 = 1;

const WRITE: u8 = 2;

const BOTH: u8 = 3;

// Whether operations contain a mode.
pub fn contains(operations: u8, mode: u8) -> bool
    ensures { result ≡ contains operations mode }
{
    (operations == mode) | (operations == BOTH)
}

// Whether operations contain the mode of one that reads or writes.
pub fn contains_held(operations: u8, reads: bool, writes: bool) -> bool
    ensures { result ≡ contains_held operations reads writes }
{
    (reads & contains(operations, READ)) | (writes & contains(operations, WRITE))
}

// The lowest of those whose locks clash with a change's that is another and has not permitted, where there is one. A change permits
// itself, and 0 is nobody's number. Whether any is left is asked first, of the four words at once: in most windows none is.
pub fn lowest_blocker(clashing: ChangeSet, permitting: ChangeSet, change: u8) -> Option<u8>
    ensures lowest { unwrap_or result 0 ≡ lowest_or_zero 256 (blocking (members clashing) (members permitting) change) }
    ensures numbered { IfSome result (λ c. 0 < c) }
{
    let mut words = permitting.words;
    insert(&mut words, change);
    let left = clashing.minus(ChangeSet { words });
    if left.is_empty() {
        return None;
    }
    left.first().filter(|c| *c != 0)
}
