// Tables of rows of four bytes in a lent section, in rising order of their first three bytes.
#![tactic(auto)]

ghost use Rattle.std.specs.Prelude.{◌≡◌, true, cond, not, ℕ, ◌+◌, ◌-◌, ◌*◌, ◌≤◌, length, get_or, set};
ghost use Rattle.rules.specs.Base.{rising, exceeds};
ghost use Rattle.rules.specs.Locks.{contains};
ghost use Rattle.cells.specs.Part.{part, patch};
ghost use Rattle.words.specs.Members.{words_have};
ghost use Rattle.sets.specs.Members.{members};
ghost use Rattle.rows.specs.Rows.{row_key, rank_of, rank, key_rank, row_of, with_key, row_bytes, row_at, rows, stands_at, KeyPlace, add_row, unless_over, spared, Stored, Closed, Retained};
ghost use Rattle.std.specs.Fn.{CalledAt};

use sets::ChangeSet;
use words::among;

// The operations of a permit that contain read and write.
const BOTH: u8 = 3;

// A key of three bytes as one number.
fn rank(a: u8, b: u8, c: u8) -> u32
    ensures { result ≡ rank_of a b c }
{
    u32::from_be_bytes([0, a, b, c])
}

// The key of the row at a place.
pub fn key_at(s: &[u8], i: usize) -> u32
    requires { 4 * i + 4 ≤ length s.now }
    ensures { result ≡ rank (row_at s.now i) }
{
    let at = 4 * i;
    rank(s[at], s[at + 1], s[at + 2])
}

// The place of a key among the first n rows, where they are in order.
pub fn place(s: &[u8], n: usize, key: [u8; 3]) -> usize
    requires { 4 * n ≤ length s.now }
    ensures upper_bound { result ≤ n }
    ensures key_place { rising row_key (rows n s.now) ≡ true → KeyPlace s.now n (key_rank key) result }
{
    let [a, b, c] = key;
    let k = rank(a, b, c);
    let (rows, _) = s.as_chunks::<4>();
    rows[..n].partition_point(|[a, b, c, _]| rank(*a, *b, *c) < k)
}

// Whether a row of the key stands at a place.
fn stands_at(s: &[u8], n: usize, at: usize, key: [u8; 3]) -> bool
    requires { 4 * n ≤ length s.now }
    ensures { result ≡ stands_at s.now n (key_rank key) at }
{
    let [a, b, c] = key;
    (at < n) && key_at(s, at) == rank(a, b, c)
}

// Whether a row of the key can be added.
pub fn has_room(s: &[u8], n: usize, most: usize, key: [u8; 3]) -> bool
    requires n_le_most { n ≤ most }
    requires most_in_bounds { 4 * most ≤ length s.now }
    ensures { rising row_key (rows n s.now) ≡ true → (more : ℕ) → result ≡ not (exceeds (length (add_row (with_key key more) (rows n s.now))) most) }
{
    if n < most {
        return true;
    }
    stands_at(s, n, place(s, n, key), key)
}

// A row's four bytes are stored at an offset.
fn write_row(s: &mut [u8], at: usize, row: [u8; 4])
    requires { at + 4 ≤ length s.old }
    ensures { s.new ≡ patch s.old at row }
{
    s[at..at + 4].copy_from_slice(&row);
}

// The last byte of a row is united with another, as operations are.
fn unite(s: &mut [u8], i: usize, more: u8)
    requires { 4 * i + 4 ≤ length s.old }
    ensures { s.new ≡ set s.old (4 * i + 3) (cond (contains (get_or s.old (4 * i + 3) 0) more) (get_or s.old (4 * i + 3) 0) 3) }
{
    let at = 4 * i + 3;
    if s[at] != more {
        s[at] = BOTH;
    }
}

// Some bytes come to another place.
fn bring(s: &mut [u8], from: usize, len: usize, to: usize)
    requires in_bounds { from + len ≤ length s.old }
    requires to_in_bounds { to + len ≤ length s.old }
    ensures { s.new ≡ patch s.old to (part s.old from len) }
{
    s.copy_within(from..from + len, to);
}

// A row is put in its place among the first n, which are in order, or united with the row of its key. Where that makes more than
// `most`, nothing changes. What comes back is how many rows there are.
pub fn insert(s: &mut [u8], n: usize, most: usize, row: [u8; 4]) -> usize
    requires n_le_most { n ≤ most }
    requires most_in_bounds { 4 * most ≤ length s.old }
    ensures upper_bound { result ≤ most }
    ensures stored { rising row_key (rows n s.old) ≡ true → Stored (unless_over most (add_row (row_of row) (rows n s.old)) (rows n s.old)) s.old result s.new }
{
    let [a, b, c, more] = row;
    let at = place(s, n, [a, b, c]);
    if stands_at(s, n, at, [a, b, c]) {
        unite(s, at, more);
        return n;
    }
    if n == most {
        return n;
    }
    bring(s, 4 * at, 4 * n - 4 * at, 4 * at + 4);
    write_row(s, 4 * at, row);
    n + 1
}

// A record's N bytes come to another place. All are read before any is stored, so that they move as whole numbers.
fn move_record<const N: usize>(s: &mut [u8], from: usize, to: usize)
    requires in_bounds { from + N ≤ length s.old }
    requires to_in_bounds { to + N ≤ length s.old }
    ensures { s.new ≡ patch s.old to (part s.old from N) }
{
    let mut record = [0; N];
    record.copy_from_slice(&s[from..from + N]);
    s[to..to + N].copy_from_slice(&record);
}

// Of the first n records of N bytes those stay that pass, closed up in order, and the places that got free are cleared. What comes back
// is how many are left.
pub fn retain<const N: usize, F: FnMut(&[u8]) -> bool>(
    s: &mut [u8],
    n: usize,
    mut stays: F,
) -> usize
    requires n_in_bounds { n * N ≤ length s.old }
    requires callable { (f : F) (x : _) → length x.now ≡ N → F.pre f x }
    ensures upper_bound { result ≤ n }
    ensures retained { Retained (CalledAt F.FnMut) stays N n s.old result s.new }
{
    let mut kept = 0;
    for i in 0..n {
        let at = i * N;
        if stays(&s[at..at + N]) {
            move_record::<N>(s, at, kept * N);
            kept += 1;
        }
    }
    s[kept * N..n * N].fill(0);
    kept
}

// The rows whose second or third byte is in the set go; what comes back is how many are left.
pub fn drop_involving(s: &mut [u8], n: usize, ended: ChangeSet) -> usize
    requires { 4 * n ≤ length s.old }
    ensures { Closed (spared (members ended)) n s.old result s.new }
{
    let words = ended.words;
    retain::<4, _>(s, n, |row| !(among(&words, row[1]) | among(&words, row[2])))
}
