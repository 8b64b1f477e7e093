// Whether lent bytes are a sound window.
#![tactic(auto)]

ghost use Rattle.std.specs.Prelude.{◌≡◌};
ghost use Rattle.layout.specs.Codec.{head_at, head_size};
ghost use Rattle.layout.specs.Memory.{sound_bytes, sound_memory};
ghost use Rattle.cells.specs.Part.{part};
ghost use Rattle.sections.specs.Sections.{HeadSound};
ghost use Rattle.soundness.specs.Read.{AreFigures};

use layout::{Changes, Entries, Header, Line, Window};
use parts::{back, front, related};
use places::header::Figure;

// The figures of a header.
#[derive(Clone, Copy)]
struct Figures {
    entries: usize,
    given: usize,
    records: usize,
    permits: usize,
    ties: usize,
    waiters: usize,
}

// The figures of a window.
fn read_figures(w: &[u8; Window::SIZE]) -> Figures
    ensures { (h : HeadSound (part w.now head_at head_size)) → AreFigures h result }
{
    let head = &w[Header::AT..Entries::AT];
    Figures {
        entries: Figure::Entries.read(head),
        given: Figure::Given.read(head),
        records: Figure::Records.read(head),
        permits: Figure::Permits.read(head),
        ties: Figure::Ties.read(head),
        waiters: Figure::Waiters.read(head),
    }
}

// Whether a window's bytes are sound.
fn sound(w: &[u8; Window::SIZE]) -> bool
    ensures { result ≡ sound_bytes w.now }
{
    if !sections::header(&w[Header::AT..Entries::AT]) {
        return false;
    }
    let f = read_figures(w);
    if !sections::changes(&w[Changes::AT..Line::AT], f.given) {
        return false;
    }
    let live = places::live_set(&w[Changes::AT..Line::AT], f.given);
    if !front(w, f.entries, f.waiters, live) {
        return false;
    }
    if !back(w, f.entries, f.permits, f.ties, f.records, live) {
        return false;
    }
    related(w, f.entries, f.permits, f.ties)
}

// Whether lent memory begins with a sound window.
#[tactic(auto, using(crate::proofs::MemoryLaws::memory_laws))]
pub fn sound_memory(memory: &[u8]) -> bool
    ensures { result ≡ sound_memory memory.now }
{
    let Some(w) = memory.first_chunk::<{ Window::SIZE }>() else {
        return false;
    };
    sound(w)
}
