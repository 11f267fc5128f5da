// No two places with one value.
ghost use Rattle.std.specs.Prelude.{◌↔◌, ◌≡◌, ◌%◌, ◌<◌, IsTrue, length, unsigned_abs};
ghost use Rattle.std.specs.List.{Contains};
ghost use Rattle.fzn_values.specs.AllDifferent.{IsAllDifferent, FrontDiffers, ShareValue, AreMarked};

use crate::entries::Entries;

/// How many places are compared with the rest at once.
const BLOCK: usize = 512;

const MARKS: usize = 16384;

/// Whether no two places have one value, block by block: marks tell most values of the rest apart from those of the block, so about
/// the square of the length by 1,000, and the square where all values have one mark.
pub fn is_all_different(places: &Entries) -> bool
    ensures { IsTrue result ↔ IsAllDifferent places.now }
{
    for block in 0..places.len() / BLOCK + 1 {
        if !front_differs(&places.from(block * BLOCK)) {
            return false;
        }
    }
    true
}

// Whether none of the first values stands again behind its place.
fn front_differs(places: &Entries) -> bool
    ensures { IsTrue result ↔ FrontDiffers 512 places.now }
{
    if places.len() <= BLOCK {
        return are_different(places);
    }
    let block = places.before(BLOCK);
    are_different(&block) && !share_value(&block, &places.from(BLOCK))
}

// Whether no two places have one value, each place compared with all behind it.
fn are_different(places: &Entries) -> bool
    ensures { IsTrue result ↔ IsAllDifferent places.now }
{
    for place in 0..places.len() {
        if places.from(place + 1).contains(places.get(place)) {
            return false;
        }
    }
    true
}

fn share_value(block: &Entries, rest: &Entries) -> bool
    ensures { IsTrue result ↔ ShareValue block.now rest.now }
{
    let mut marks = [false; MARKS];
    mark_all(&mut marks, block);
    has_marked(&marks, block, rest)
}

fn has_marked(marks: &[bool], block: &Entries, rest: &Entries) -> bool
    requires marks { length marks.now ≡ 16384 }
    requires marked { AreMarked marks.now block.now }
    ensures { IsTrue result ↔ ShareValue block.now rest.now }
{
    for place in 0..rest.len() {
        if is_in_marked(marks, block, rest.get(place)) {
            return true;
        }
    }
    false
}

fn is_in_marked(marks: &[bool], block: &Entries, value: i64) -> bool
    requires marks { length marks.now ≡ 16384 }
    requires marked { AreMarked marks.now block.now }
    ensures { IsTrue result ↔ Contains block.now value }
{
    marks[mark_of(value)] && block.contains(value)
}

fn mark_all(marks: &mut [bool], block: &Entries)
    requires { length marks.old ≡ 16384 }
    ensures length { length marks.new ≡ 16384 }
    ensures marked { AreMarked marks.new block.now }
{
    for place in 0..block.len() {
        marks[mark_of(block.get(place))] = true;
    }
}

fn mark_of(value: i64) -> usize
    ensures value { result ≡ unsigned_abs value % 16384 }
    ensures bound { result < 16384 }
{
    (value.unsigned_abs() % MARKS as u64) as usize
}
