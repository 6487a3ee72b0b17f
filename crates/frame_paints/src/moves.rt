//! What was scrolled or dragged: a rectangle of what is shown that the frame has at another place.
ghost use Rattle.std.specs.Prelude.{◌≡◌, ◌^◌, ◌<◌, ◌≤◌, length};

use crate::compare::changed;
use crate::rows::{common_back, common_front, row_at};
use h265_model::{NoMemory, Rect};
use px_plane::Picture;
use std::alloc::Global;

/// A rectangle, and where it moved.
#[derive(Clone, Copy, Debug)]
pub(crate) struct Move {
    pub rect: Rect,
    pub to_x: u32,
    pub to_y: u32,
}

// How many pixels beside one another are looked for, by their samples of G.
const KEY: u32 = 32;

// The most places that are looked for, in all and in a row.
const MOST_KEYS: usize = 512;

const MOST_IN_ROW: u32 = 12;

// Of a high part one row in so many is searched, and as many beside one another are looked for.
const GROUP: u32 = 4;

// Keys are numbers in base `BASE` with the samples as digits; `BASE` to the power of 32 is `OUT`.
const BASE: u32 = 0x9E37_79B1;

const OUT: u32 = 0x53FD_A601;

const SLOTS: usize = 4096;

const VOTES: usize = 4096;

// How many of the moves with the most votes are tried.
const TRIED: u32 = 4;

// How often a colour changes in a key at least.
const CHANGES: u32 = 4;

// The fewest votes, and the fewest pixels, that are worth a copy.
const FEWEST_VOTES: u32 = 3;

const FEWEST_PIXELS: u32 = 1024;

// A place of the frame whose surroundings are looked for in what is shown.
#[derive(Clone, Copy)]
struct Place {
    key: u32,
    x: u32,
    y: u32,
}

// A place of the frame, and one that was alike.
#[derive(Clone, Copy)]
struct Pair {
    x: u32,
    y: u32,
    from_x: u32,
    from_y: u32,
}

// How many places moved by as much, and the first of them.
#[derive(Clone, Copy)]
struct Vote {
    count: u32,
    by: u32,
    pair: Pair,
}

fn key_of(row: &[u8]) -> u32 {
    let mut key = 0u32;
    for sample in row {
        key = key.wrapping_mul(BASE).wrapping_add(u32::from(*sample));
    }
    key
}

fn changes_in(row: &[u8]) -> u32 {
    let mut count = 0u32;
    for i in 1..row.len() {
        count = count.wrapping_add(u32::from(row[i] != row[i - 1]));
    }
    count
}

// The slot of a number among so many, which are a power of 2.
fn slot_of(number: u32, slots: usize) -> usize
    requires { 0 < slots }
    ensures { result < slots }
{
    let mixed = number.wrapping_mul(0x85EB_CA6B);
    (mixed / 65536) as usize % slots
}

// The places that are looked for, by their keys.
#[derive(Drop)]
struct Keys {
    // From 1 on: which place has a key with this slot.
    slots: Vec<u16>,
    places: Vec<Place>,
    ghost whole: { length slots.items ≡ 4096 },
}

impl Keys {
    fn new(alloc: Global) -> Result<Keys, NoMemory> {
        let slots = vec![in alloc; 0; SLOTS]?;
        let places = Vec::with_capacity(alloc, MOST_KEYS)?;
        Ok(Keys { slots, places })
    }

    // Adds a place, unless there are enough or one has its slot.
    fn add(&mut self, place: Place) -> Result<(), NoMemory> {
        let slot = slot_of(place.key, SLOTS);
        let count = self.places.len();
        if count < MOST_KEYS && self.slots[slot] == 0 {
            self.places.push(place)?;
            self.slots[slot] = count as u16 + 1;
        }
        Ok(())
    }

    // The place that has this key.
    fn find(&self, key: u32) -> Option<Place> {
        let number = self.slots[slot_of(key, SLOTS)];
        if number == 0 {
            return None;
        }
        let place = *self.places.get(number as usize - 1)?;
        if place.key == key { Some(place) } else { None }
    }

    // Adds the places of a row of the frame that changed and aren't plain.
    fn add_row(
        &mut self,
        shown: &Picture,
        frame: &Picture,
        part: Rect,
        y: u32,
    ) -> Result<(), NoMemory> {
        let step = (part.w / MOST_IN_ROW).max(KEY);
        for k in 0..part.w / step {
            let x = part.x.saturating_add(k.saturating_mul(step));
            let new = row_at(frame, 0, x, y, KEY);
            let old = row_at(shown, 0, x, y, KEY);
            if changes_in(new) >= CHANGES && (common_front(new, old) as usize) < new.len() {
                let key = key_of(new);
                self.add(Place { key, x, y })?;
            }
        }
        Ok(())
    }
}

// How far places moved.
#[derive(Drop)]
struct Votes {
    votes: Vec<Vote>,
    ghost whole: { length votes.items ≡ 4096 },
}

impl Votes {
    fn new(alloc: Global) -> Result<Votes, NoMemory> {
        let pair = Pair {
            x: 0,
            y: 0,
            from_x: 0,
            from_y: 0,
        };
        let none = Vote {
            count: 0,
            by: 0,
            pair,
        };
        let votes = vec![in alloc; none; VOTES]?;
        Ok(Votes { votes })
    }

    // Counts a pair, unless others have its slots.
    fn count(&mut self, pair: Pair) {
        let across = pair.x.wrapping_sub(pair.from_x).wrapping_add(4096);
        let down = pair.y.wrapping_sub(pair.from_y).wrapping_add(4096);
        let by = down.wrapping_mul(65536).wrapping_add(across);
        let first = slot_of(by, VOTES);
        for k in 0..4 {
            let slot = (first + k) % VOTES;
            let vote = self.votes[slot];
            if vote.count == 0 {
                self.votes[slot] = Vote { count: 1, by, pair };
                return;
            }
            if vote.by == by {
                self.votes[slot].count = vote.count.wrapping_add(1);
                return;
            }
        }
    }

    // The pair of the most votes, which are given up.
    fn take_best(&mut self) -> Option<Pair> {
        let mut best = 0;
        for k in 1..VOTES {
            if self.votes[k].count > self.votes[best].count {
                best = k;
            }
        }
        let Vote { count, pair, .. } = self.votes[best];
        if count < FEWEST_VOTES {
            return None;
        }
        self.votes[best].count = 0;
        Some(pair)
    }

    // Counts each place of a row of what is shown that has the key of a place of the frame.
    fn count_row(&mut self, keys: &Keys, row: &[u8], from_x: u32, from_y: u32)
        requires { length row.now < 2 ^ 32 }
    {
        let n = KEY as usize;
        if row.len() < n {
            return;
        }
        let mut key = key_of(&row[..n]);
        for i in n..row.len() {
            if let Some(Place { x, y, .. }) = keys.find(key) {
                let from_x = from_x.wrapping_add((i - n) as u32);
                if x != from_x || y != from_y {
                    self.count(Pair {
                        x,
                        y,
                        from_x,
                        from_y,
                    });
                }
            }
            let out = u32::from(row[i - n]).wrapping_mul(OUT);
            let next = u32::from(row[i]);
            key = key.wrapping_mul(BASE).wrapping_add(next).wrapping_sub(out);
        }
    }
}

// How many pixels from a pair on to the right are alike, of so many at most.
fn run_right(shown: &Picture, frame: &Picture, pair: Pair, most: u32) -> u32 {
    let w = frame.size().w();
    let (x, from_x) = (pair.x, pair.from_x);
    let mut n = most.min(w.saturating_sub(x)).min(w.saturating_sub(from_x));
    for c in 0..3 {
        let new = row_at(frame, c, x, pair.y, n);
        let old = row_at(shown, c, from_x, pair.from_y, n);
        n = common_front(new, old);
    }
    n
}

// How many before it.
fn run_left(shown: &Picture, frame: &Picture, pair: Pair, most: u32) -> u32 {
    let (x, from_x) = (pair.x, pair.from_x);
    let mut n = most.min(x).min(from_x);
    for c in 0..3 {
        let new = row_at(frame, c, x.saturating_sub(n), pair.y, n);
        let old = row_at(shown, c, from_x.saturating_sub(n), pair.from_y, n);
        n = common_back(new, old);
    }
    n
}

// How far what is alike reaches from a pair to the left and to the right, and over how many rows.
#[derive(Clone, Copy)]
struct Reach {
    left: u32,
    right: u32,
    rows: u32,
}

fn area(reach: Reach) -> u32 {
    reach
        .left
        .wrapping_add(reach.right)
        .wrapping_mul(reach.rows)
}

// The pair so many rows below or above a pair.
fn pair_at(pair: Pair, rows: u32, up: bool) -> Pair {
    let (y, from_y) = if up {
        (pair.y.wrapping_sub(rows), pair.from_y.wrapping_sub(rows))
    } else {
        (pair.y.wrapping_add(rows), pair.from_y.wrapping_add(rows))
    };
    Pair { y, from_y, ..pair }
}

// The largest reach that goes on from one by at most so many rows.
fn reach_on(
    shown: &Picture,
    frame: &Picture,
    pair: Pair,
    start: Reach,
    most: u32,
    up: bool,
) -> Reach {
    let (mut reach, mut best) = (start, start);
    for k in 1..most {
        let at = pair_at(pair, k, up);
        reach.left = run_left(shown, frame, at, reach.left);
        reach.right = run_right(shown, frame, at, reach.right);
        reach.rows = reach.rows.wrapping_add(1);
        if reach.left.saturating_add(reach.right) < KEY {
            return best;
        }
        if area(reach) >= area(best) {
            best = reach;
        }
    }
    best
}

// The rectangle around a pair that moved as it did, within the rows from `top` up to `bottom`.
fn move_of(shown: &Picture, frame: &Picture, pair: Pair, top: u32, bottom: u32) -> Option<Move> {
    let start = Reach {
        left: run_left(shown, frame, pair, u32::MAX),
        right: run_right(shown, frame, pair, u32::MAX),
        rows: 1,
    };
    let below = bottom.saturating_sub(pair.y.max(pair.from_y));
    let above = pair
        .y
        .min(pair.from_y)
        .saturating_sub(top)
        .saturating_add(1);
    let low = reach_on(shown, frame, pair, start, below, false);
    let whole = reach_on(shown, frame, pair, low, above, true);
    if area(whole) < FEWEST_PIXELS {
        return None;
    }
    let up = whole.rows.saturating_sub(low.rows);
    let rect = Rect {
        x: pair.from_x.saturating_sub(whole.left),
        y: pair.from_y.saturating_sub(up),
        w: whole.left.saturating_add(whole.right),
        h: whole.rows,
    };
    Some(Move {
        rect,
        to_x: pair.x.saturating_sub(whole.left),
        to_y: pair.y.saturating_sub(up),
    })
}

// Of how many rows of a part one is searched.
fn group_of(part: Rect) -> u32
    ensures { 1 ≤ result }
{
    if part.h >= 16 * GROUP { GROUP } else { 1 }
}

// The places of a part that are looked for: in about 40 rows, as many beside one another as one of them is searched of.
fn keys_of(alloc: Global, shown: &Picture, frame: &Picture, part: Rect) -> Result<Keys, NoMemory> {
    let mut keys = Keys::new(alloc)?;
    let group = group_of(part);
    let step = (part.h / 40).max(1).saturating_mul(group);
    for k in 0..part.h / group {
        let y = (k / group).saturating_mul(step).saturating_add(k % group);
        if y < part.h {
            keys.add_row(shown, frame, part, part.y.saturating_add(y))?;
        }
    }
    Ok(keys)
}

// How far the places of a part moved that are looked for.
fn votes_of(alloc: Global, shown: &Picture, part: Rect, keys: &Keys) -> Result<Votes, NoMemory> {
    let mut votes = Votes::new(alloc)?;
    let group = group_of(part);
    for k in 0..part.h / group {
        let y = part.y.saturating_add(k.saturating_mul(group));
        votes.count_row(keys, row_at(shown, 0, part.x, y, part.w), part.x, y);
    }
    Ok(votes)
}

// The larger one of two moves.
fn larger(one: Option<Move>, other: Option<Move>) -> Option<Move> {
    match (one, other) {
        (Some(a), Some(b)) if size_of(a) >= size_of(b) => Some(a),
        (Some(a), None) => Some(a),
        _ => other,
    }
}

// How many pixels move.
fn size_of(a: Move) -> u32 {
    a.rect.w.wrapping_mul(a.rect.h)
}

/// A rectangle of what is shown in the rows from `top` up to `bottom` that the frame has at another place there.
pub(crate) fn find_move(
    alloc: Global,
    shown: &Picture,
    frame: &Picture,
    top: u32,
    bottom: u32,
) -> Result<Option<Move>, NoMemory>
    requires sizes { frame.now.size ≡ shown.now.size }
    requires down { (top ≤ bottom) × (bottom ≤ shown.now.size.h) }
{
    let Some(part) = changed(shown, frame, top, bottom) else {
        return Ok(None);
    };
    if part.w.saturating_mul(part.h) < FEWEST_PIXELS {
        return Ok(None);
    }
    let keys = keys_of(alloc, shown, frame, part)?;
    let mut votes = votes_of(alloc, shown, part, &keys)?;
    let mut found = None;
    for _ in 0..TRIED {
        if let Some(pair) = votes.take_best() {
            found = larger(found, move_of(shown, frame, pair, top, bottom));
        }
    }
    Ok(found)
}
