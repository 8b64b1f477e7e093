// The table of ties in its lent section: each stands once, in rising order of kind, leader, follower.
#![tactic(auto)]

ghost use Rattle.std.specs.Prelude.{◌≡◌, true, not, List, [], ◌∷◌, ◌≤◌, length};
ghost use Rattle.rules.specs.Base.{rising, exceeds};
ghost use Rattle.rules.specs.Window.{limits, TieRecord, tie_key};
ghost use Rattle.rules.specs.Ties.{make_tie, add_tie};
ghost use Rattle.rules.specs.Effects.{ties_left};
ghost use Rattle.layout.specs.Codec.{ties_size, tie_section};
ghost use Rattle.layout.specs.Records.{Tabled};
ghost use Rattle.sets.specs.Members.{members};
ghost use Rattle.rows.specs.Rows.{unless_over};

use layout::Ties;
use sets::ChangeSet;

// The kind of a group tie.
const GROUP: u8 = 3;

// The key of a tie as it is stored: of a group tie the lower number is the leader.
fn key(kind: u8, leader: u8, follower: u8) -> [u8; 3]
    ensures { result ≡ (make_tie kind leader follower).kind ∷ (make_tie kind leader follower).leader ∷ (make_tie kind leader follower).follower ∷ [] }
{
    let turned = (kind == GROUP) & (follower < leader);
    if turned {
        return [kind, follower, leader];
    }
    [kind, leader, follower]
}

// Whether a tie can be added: there is room, or it stands already.
pub fn fits(ties: &[u8], count: usize, kind: u8, leader: u8, follower: u8) -> bool
    requires ties_len { length ties.now ≡ ties_size }
    requires count_bound { count ≤ 512 }
    ensures { (ts : List TieRecord) → length ts ≡ count → ties.now ≡ tie_section ts → rising tie_key ts ≡ true → result ≡ not (exceeds (length (add_tie (make_tie kind leader follower) ts)) limits.ties) }
{
    let [kind, first, second] = key(kind, leader, follower);
    rows::has_room(ties, count, Ties::MOST, [kind, first, second])
}

// A tie is entered, unless it stands or there is no room. What comes back is how many ties there are.
pub fn add(ties: &mut [u8], count: usize, kind: u8, leader: u8, follower: u8) -> usize
    requires ties_len { length ties.old ≡ ties_size }
    requires count_bound { count ≤ 512 }
    ensures upper_bound { result ≤ 512 }
    ensures tabled { (ts : List TieRecord) → length ts ≡ count → ties.old ≡ tie_section ts → rising tie_key ts ≡ true → Tabled tie_section (unless_over limits.ties (add_tie (make_tie kind leader follower) ts) ts) result ties.new }
{
    let [kind, leader, follower] = key(kind, leader, follower);
    rows::insert(ties, count, Ties::MOST, [kind, leader, follower, 0])
}

// The ties that a change of the set leads or follows go. What comes back is how many are left.
pub fn drop_ended(ties: &mut [u8], count: usize, ended: ChangeSet) -> usize
    requires ties_len { length ties.old ≡ ties_size }
    requires count_bound { count ≤ 512 }
    ensures upper_bound { result ≤ count }
    ensures tabled { (ts : List TieRecord) → length ts ≡ count → ties.old ≡ tie_section ts → Tabled tie_section (ties_left (members ended) ts) result ties.new }
{
    rows::drop_involving(ties, count, ended)
}
