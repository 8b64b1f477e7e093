// Whether the lent section of the line is that of a sound window: each who stands in it runs, and stands once.
#![tactic(auto)]

ghost use Rattle.std.specs.Prelude.{◌≡◌, true, false, not, ◌||◌, ◌↔◌, ℕ, ◌+◌, ◌*◌, ◌≤◌, eqb, length};
ghost use Rattle.rules.specs.Base.{all_below};
ghost use Rattle.layout.specs.Codec.{changes_size, line_size, change_section};
ghost use Rattle.words.specs.Members.{words_have};
ghost use Rattle.line_section.specs.Fits.{run_in, waiter_fits, place_fits};
ghost use Rattle.line_section.specs.Sections.{run_by, LineSound};

use cells::all_zero;
use layout::Line;
use places::changes::Status;
use sets::ChangeSet;
use words::{among, insert};

// Whether a change runs.
fn runs(changes: &[u8], c: u8) -> bool
    requires { length changes.now ≡ changes_size }
    ensures { result ≡ run_in changes.now c }
{
    changes[usize::from(c) * 4] == Status::Running as u8
}

// Who stands at place j: status 2, an entry that there is, mode 1 or 2, and the last byte 0.
fn waiter_at(line: &[u8], j: usize, entries: usize, changes: &[u8]) -> bool
    requires j_in_bounds { j * 4 + 4 ≤ length line.now }
    requires changes_len { length changes.now ≡ changes_size }
    ensures { result ≡ waiter_fits line.now entries changes.now j }
{
    let at = j * Line::RECORD;
    let mode = line[at + 2];
    runs(changes, line[at])
        & (usize::from(line[at + 1]) < entries)
        & (1..=2).contains(&mode)
        & (line[at + 3] == 0)
}

// Whether a change was not among those seen. Now it is.
fn is_new(seen: &mut [u64; 4], change: u8) -> bool
    ensures value { result ≡ not (words_have seen.old change) }
    ensures by_index { (k : ℕ) → words_have seen.new k ≡ eqb k change || words_have seen.old k }
{
    let new = !among(seen, change);
    insert(seen, change);
    new
}

// Those who stand in the line, each once; nobody was seen before.
fn standing(line: &[u8], count: usize, entries: usize, changes: &[u8], seen: &mut [u64; 4]) -> bool
    requires line_len { length line.now ≡ line_size }
    requires count_bound { count ≤ 255 }
    requires changes_len { length changes.now ≡ changes_size }
    ensures { ((k : ℕ) → words_have seen.old k ≡ false) → result ≡ all_below count (place_fits line.now entries changes.now) }
{
    for j in 0..count {
        if !waiter_at(line, j, entries, changes) {
            return false;
        }
        if !is_new(seen, line[j * Line::RECORD]) {
            return false;
        }
    }
    true
}

// Each who stands in the line runs, and stands once; and the unused places are 0.
pub fn line(line: &[u8], count: usize, entries: usize, changes: &[u8]) -> bool
    requires line_len { length line.now ≡ line_size }
    requires count_bound { count ≤ 255 }
    requires changes_len { length changes.now ≡ changes_size }
    ensures { (st pa : ℕ → ℕ) → changes.now ≡ change_section st pa → (result ≡ true ↔ LineSound line.now count entries (run_by st)) }
{
    let nobody = ChangeSet::empty();
    let mut seen = nobody.words;
    if !standing(line, count, entries, changes, &mut seen) {
        return false;
    }
    all_zero(line, count * Line::RECORD, Line::SIZE)
}
