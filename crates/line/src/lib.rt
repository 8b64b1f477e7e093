// The lines of the entries in their section: who stands first, where a change stands, a change entered and taken out.
#![tactic(auto)]

ghost use Rattle.std.specs.Prelude.{◌≡◌, ◌==◌, true, List, ◌≤◌, ◌<◌, length, slice_index, position, IfSome};
ghost use Rattle.std.specs.Option.{unwrap_or};
ghost use Rattle.rules.specs.Sets.{only};
ghost use Rattle.rules.specs.Window.{LineRecord};
ghost use Rattle.rules.specs.Base.{distinct};
ghost use Rattle.rules.specs.Line.{make_waiter, waits_elsewhere, first_in_line, enter_line, line_left};
ghost use Rattle.layout.specs.Codec.{line_size, line_section};
ghost use Rattle.layout.specs.Records.{Tabled};
ghost use Rattle.sets.specs.Members.{members};
ghost use Rattle.line.specs.Line.{Found};

use layout::Line;
use rows::retain;
use sets::ChangeSet;
use words::among;

// The bytes of a record that name its change and its entry.
const CHANGE: usize = 0;

const ENTRY: usize = 1;

// The place of the first of these records whose byte k is x.
fn place_of(records: &[[u8; 4]], k: usize, x: u8) -> Option<usize>
    requires { k < 4 }
    ensures value { result ≡ position (λ bytes. slice_index bytes k == x) records.now }
    ensures some { IfSome result (λ place. place < length records.now) }
{
    records.iter().position(|record| record[k] == x)
}

// The same of the first `count` records of a section.
fn find(line: &[u8], count: usize, k: usize, x: u8) -> Option<usize>
    requires line_len { length line.now ≡ line_size }
    requires count_bound { count ≤ 256 }
    requires k_bound { k < 4 }
    ensures upper_bound { unwrap_or result count ≤ count }
    ensures some { IfSome result (λ place. place < count) }
    ensures found { Found line.now count k x (unwrap_or result count) }
{
    let (records, _) = line[..count * Line::RECORD].as_chunks::<4>();
    place_of(records, k, x)
}

// The first change in an entry's line.
pub fn front(line: &[u8], count: usize, entry: u8) -> Option<u8>
    requires line_len { length line.now ≡ line_size }
    requires count_bound { count ≤ 255 }
    ensures { (l : List LineRecord) → length l ≡ count → line.now ≡ line_section l → unwrap_or result 0 ≡ first_in_line l entry }
{
    let place = find(line, count, ENTRY, entry)?;
    Some(line[place * Line::RECORD])
}

// Whether a change, which stands in one line at most, stands in that of another entry.
pub fn elsewhere(line: &[u8], count: usize, change: u8, entry: u8) -> bool
    requires line_len { length line.now ≡ line_size }
    requires count_bound { count ≤ 255 }
    ensures { (l : List LineRecord) → length l ≡ count → line.now ≡ line_section l → distinct (λ x. x.change) l ≡ true → result ≡ waits_elsewhere l change entry }
{
    match find(line, count, CHANGE, change) {
        Some(place) => line[place * Line::RECORD + ENTRY] != entry,
        None => false,
    }
}

// A change is put at the end of an entry's line with its mode, or keeps its place and takes the newer mode. What comes back is how many records there are.
pub fn enter(line: &mut [u8], count: usize, change: u8, entry: u8, mode: u8) -> usize
    requires line_len { length line.old ≡ line_size }
    requires count_bound { count ≤ 255 }
    ensures upper_bound { result ≤ 256 }
    ensures tabled { (l : List LineRecord) → length l ≡ count → line.old ≡ line_section l → Tabled line_section (enter_line (make_waiter change entry mode) l) result line.new }
{
    let found = find(line, count, CHANGE, change);
    let at = found.unwrap_or(count) * Line::RECORD;
    let record = [change, entry, mode, 0];
    line[at..at + Line::RECORD].copy_from_slice(&record);
    match found {
        Some(_) => count,
        None => count + 1,
    }
}

// The changes of a set are taken out and the others close up in order. What comes back is how many are left.
pub fn drop_all(line: &mut [u8], count: usize, leaving: ChangeSet) -> usize
    requires line_len { length line.old ≡ line_size }
    requires count_bound { count ≤ 255 }
    ensures upper_bound { result ≤ count }
    ensures tabled { (l : List LineRecord) → length l ≡ count → line.old ≡ line_section l → Tabled line_section (line_left (members leaving) l) result line.new }
{
    let words = leaving.words;
    retain::<4, _>(line, count, |record| !among(&words, record[CHANGE]))
}

// A change is taken out. What comes back is how many are left.
pub fn leave(line: &mut [u8], count: usize, change: u8) -> usize
    requires line_len { length line.old ≡ line_size }
    requires count_bound { count ≤ 255 }
    ensures upper_bound { result ≤ count }
    ensures tabled { (l : List LineRecord) → length l ≡ count → line.old ≡ line_section l → Tabled line_section (line_left (only change) l) result line.new }
{
    drop_all(line, count, ChangeSet::empty().add(change))
}
