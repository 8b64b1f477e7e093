// Whether sections of lent bytes taken together are those of a sound window: values, line and locks; permits, ties and log; arrows and clashing pairs.
#![tactic(auto)]

ghost use Rattle.std.specs.Prelude.{◌≡◌, true, ◌&&◌, ◌↔◌, ℕ, suc, ◌≤◌, length};
ghost use Rattle.rules.specs.Window.{Window as WindowOf};
ghost use Rattle.rules.specs.Locks.{clashes_permitted};
ghost use Rattle.rules.specs.Ties.{acyclic};
ghost use Rattle.layout.specs.Codec.{changes_at, changes_size, change_section, locks_at, locks_size};
ghost use Rattle.cells.specs.Part.{part};
ghost use Rattle.sets.specs.Members.{members};
ghost use Rattle.sections.specs.Sections.{LocksSound};
ghost use Rattle.line_section.specs.Sections.{run_by};
ghost use Rattle.parts.specs.Parts.{FrontSound, BackSound, Listed};

use layout::{Changes, Entries, Line, Locks, Log, Permits, Ties, Window};
use sets::ChangeSet;

// The values, the line beside the changes, and the locks.
pub fn front(w: &[u8; Window::SIZE], entries: usize, waiters: usize, live: ChangeSet) -> bool
    requires entries_bound { (entries ≤ 256) × (waiters ≤ 255) }
    ensures { (st pa : ℕ → ℕ) → part w.now changes_at changes_size ≡ change_section st pa → (result ≡ true ↔ FrontSound w.now entries waiters (members live) (run_by st)) }
{
    if !sections::values(&w[Entries::AT..Changes::AT], entries) {
        return false;
    }
    if !line_section::line(
        &w[Line::AT..Locks::AT],
        waiters,
        entries,
        &w[Changes::AT..Line::AT],
    ) {
        return false;
    }
    sections::locks(&w[Locks::AT..Permits::AT], entries, live)
}

// The permits, the ties and the log, beside sound locks.
pub fn back(
    w: &[u8; Window::SIZE],
    entries: usize,
    permits: usize,
    ties: usize,
    records: usize,
    live: ChangeSet,
) -> bool
    requires permits_bound { (permits ≤ 1024) × (ties ≤ 512) × (records ≤ 2048) }
    ensures { (z : LocksSound (part w.now locks_at locks_size) entries (members live)) → (result ≡ true ↔ BackSound w.now entries permits ties records (members live) z.held) }
{
    if !row_sections::permits(&w[Permits::AT..Ties::AT], permits, entries, live) {
        return false;
    }
    if !row_sections::ties(&w[Ties::AT..Log::AT], ties, live) {
        return false;
    }
    sections::log(&w[Log::AT..], records, &w[Locks::AT..Permits::AT])
}

// Arrows do not close a cycle, and each clashing pair of locks has a permit.
#[tactic(auto, using(crate::proofs::RelatedLaws::ties_taken))]
pub fn related(w: &[u8; Window::SIZE], entries: usize, permits: usize, ties: usize) -> bool
    requires entries_bound { (entries ≤ 256) × (permits ≤ 1024) × (ties ≤ 512) }
    ensures { (W : WindowOf) → Listed w.now entries permits ties W → result ≡ acyclic (suc W.given) W.ties && clashes_permitted W }
{
    if !cycles::acyclic(&w[Ties::AT..Log::AT], ties) {
        return false;
    }
    clashes::all_permitted(
        &w[Locks::AT..Permits::AT],
        entries,
        &w[Permits::AT..Ties::AT],
        permits,
    )
}
