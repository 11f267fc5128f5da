// Whether places may lie in too few numbers: the search of `links.rt` where the numbers are few, each by itself, and the places in lists
// by their upper ends. No contract rests on what it says.
use crate::ends::Ends;
use fzn_domain::Memory;
use std::alloc::Global;

/// What is kept of the number at an index, from 1, the least, and of the place at an index, from 1, the first.
#[derive(Clone, Copy, Debug)]
struct Cell {
    /// The last of the places that end before this number; 0 where there is none.
    last: usize,
    /// The place before this one in its list.
    before: usize,
    /// From a number that is taken towards the next that is not, and from that one to where its run begins.
    free: usize,
    /// From each number within a full interval towards its end.
    full: usize,
}

impl Cell {
    fn new(i: usize) -> Cell {
        Cell {
            last: 0,
            before: 0,
            free: i.saturating_sub(1),
            full: i.saturating_sub(1),
        }
    }
}

/// The numbers from the least to the greatest end.
#[derive(Debug, Drop)]
struct Line {
    cells: Vec<Cell>,
    least: i64,
    greatest: i64,
}

fn index_of(number: i64) -> usize {
    usize::try_from(number).unwrap_or(0)
}

impl Line {
    fn cell(&self, i: usize) -> Cell {
        self.cells.get(i).copied().unwrap_or(Cell::new(0))
    }

    /// The index of the lower end, or where each number is negated of the upper one.
    fn low(&self, end: &Ends, turned: bool) -> usize {
        let from_least = if turned {
            self.greatest.saturating_sub(end.high)
        } else {
            end.low.saturating_sub(self.least)
        };
        index_of(from_least.saturating_add(1))
    }

    /// The index behind the upper end, or where each number is negated behind the lower one.
    fn behind(&self, end: &Ends, turned: bool) -> usize {
        let from_least = if turned {
            self.greatest.saturating_sub(end.low)
        } else {
            end.high.saturating_sub(self.least)
        };
        index_of(from_least.saturating_add(2))
    }

    /// Nothing is taken.
    fn clear(&mut self) {
        for i in 0..self.cells.len() {
            self.cells[i] = Cell::new(i);
        }
    }

    /// Puts the place at an index into the list of the number behind its upper end.
    fn note(&mut self, place: usize, behind: usize) {
        let before = self.cell(behind).last;
        if place < self.cells.len() {
            self.cells[place].before = before;
        }
        if behind < self.cells.len() {
            self.cells[behind].last = place;
        }
    }

    fn put_free(&mut self, i: usize, to: usize) {
        if i < self.cells.len() {
            self.cells[i].free = to;
        }
    }

    fn put_full(&mut self, i: usize, to: usize) {
        if i < self.cells.len() {
            self.cells[i].full = to;
        }
    }

    /// The first number from this one on that is not taken.
    fn next_free(&self, from: usize) -> usize {
        let mut number = from;
        for _ in 0..self.cells.len() {
            let next = self.cell(number).free;
            if next <= number {
                return number;
            }
            number = next;
        }
        number
    }

    /// Lets each number on the way to one that is free lead there.
    fn shorten(&mut self, from: usize, until: usize) {
        let mut number = from;
        for _ in 0..self.cells.len() {
            if number == until {
                return;
            }
            let next = self.cell(number).free;
            self.put_free(number, until);
            number = next;
        }
    }

    /// Notes that the interval behind one number and before another is full.
    fn fill(&mut self, before: usize, behind: usize) {
        let mut number = self.cell(behind).full;
        for _ in 0..self.cells.len() {
            if number == before {
                break;
            }
            let next = self.cell(number).full;
            self.put_full(number, behind);
            number = next;
        }
        self.put_full(behind, before);
    }

    /// Takes a number for a place. Whether none is left for it, or its lower end lies in a full interval that ends before the place does.
    fn take(&mut self, low: usize, behind: usize) -> bool {
        let from = low.saturating_add(1);
        let taken = self.next_free(from);
        let begin = self.cell(taken).free;
        self.put_free(taken, taken.saturating_add(1));
        let next = self.next_free(taken.saturating_add(1));
        self.put_free(next, begin);
        self.shorten(from, next);
        if behind.saturating_add(1) < next || low < self.cell(low).full {
            return true;
        }
        if next == behind.saturating_add(1) {
            self.fill(begin.saturating_sub(1), behind);
        }
        false
    }

    /// Takes numbers for the places that end before one number.
    fn take_all(&mut self, ends: &[Ends], turned: bool, behind: usize) -> bool {
        let mut place = self.cell(behind).last;
        for _ in 0..ends.len() {
            if place == 0 || ends.len() < place {
                return false;
            }
            let low = self.low(&ends[place - 1], turned);
            if self.take(low, behind) {
                return true;
            }
            place = self.cell(place).before;
        }
        false
    }

    /// Whether a full interval says something of lower ends, or where each number is negated of upper ones.
    fn is_full(&mut self, ends: &[Ends], turned: bool) -> bool {
        self.clear();
        for k in 0..ends.len() {
            let behind = self.behind(&ends[k], turned);
            self.note(k.saturating_add(1), behind);
        }
        for behind in 0..self.cells.len() {
            if self.take_all(ends, turned, behind) {
                return true;
            }
        }
        false
    }
}

/// Whether some place with several values has no more numbers between its ends than there are places.
fn has_narrow(ends: &[Ends]) -> bool {
    for end in ends {
        if end.low < end.high && end.is_full_from(end.low, ends.len()) {
            return true;
        }
    }
    false
}

/// The least and the greatest number from the least to the greatest end.
fn whole(ends: &[Ends]) -> (i64, i64) {
    let mut least = i64::MAX;
    let mut greatest = i64::MIN;
    for end in ends {
        least = least.min(end.low);
        greatest = greatest.max(end.high);
    }
    (least, greatest)
}

/// `false`: no interval is full that holds a place with several values and says something of another place.
pub fn may_be_full(alloc: Global, ends: &[Ends]) -> Result<bool, Memory> {
    if !has_narrow(ends) {
        return Ok(false);
    }
    let (least, greatest) = whole(ends);
    let numbers = index_of(greatest.saturating_sub(least));
    if ends.len().saturating_mul(8) < numbers {
        return Ok(true);
    }
    let count = numbers.max(ends.len()).saturating_add(5);
    let mut line = Line {
        cells: Vec::from_elem(alloc, Cell::new(0), count)?,
        least,
        greatest,
    };
    Ok(line.is_full(ends, false) || line.is_full(ends, true))
}
