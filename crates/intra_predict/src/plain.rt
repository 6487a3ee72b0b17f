//! Planar and DC prediction (8.4.4.2.4, 8.4.4.2.5).
ghost use Rattle.std.specs.Prelude.{◌≡◌, ℕ, ◌+◌, ◌*◌, ◌<◌, ◌≤◌, ◌^◌, map, sum, length};
ghost use Rattle.h265_model.specs.Plain.{below};
ghost use Rattle.h265_model.specs.Predict as model;

/// The side of a block.
#[inline(always)]
pub(crate) fn side(log2: u32) -> usize
    requires low { 3 ≤ log2 }
    requires high { log2 ≤ 5 }
    ensures value { result ≡ 2 ^ log2 }
    ensures least { 8 ≤ result }
    ensures most { result ≤ 32 }
{
    match log2 {
        3 => 8,
        4 => 16,
        _ => 32,
    }
}

// The sum of a few samples.
fn sum_of(part: &[u8]) -> u32
    requires { length part.now ≤ 32 }
    ensures value { result ≡ sum part.now }
    ensures bound { result ≤ 255 * length part.now }
{
    let mut total: u32 = 0;
    for i in 0..part.len() {
        total += u32::from(part[i]);
    }
    total
}

/// The mean of the samples above and to the left.
pub(crate) fn mean_of(log2: u32, refs: &[u8]) -> u32
    requires low { 3 ≤ log2 }
    requires high { log2 ≤ 5 }
    requires whole { length refs.now ≡ 4 * 2 ^ log2 + 1 }
    ensures value { result ≡ model.mean log2 refs.now }
    ensures bound { result ≤ 255 }
{
    let n = side(log2);
    let sum = sum_of(&refs[2 * n + 1..3 * n + 1]) + sum_of(&refs[n..2 * n]) + n as u32;
    sum >> (log2 + 1)
}

/// One row of planar prediction.
#[inline(always)]
pub(crate) fn planar_row(log2: u32, refs: &[u8], y: usize, row: &mut [u8])
    requires low { 3 ≤ log2 }
    requires high { log2 ≤ 5 }
    requires whole { length refs.now ≡ 4 * 2 ^ log2 + 1 }
    requires row { length row.old ≡ 2 ^ log2 }
    requires y { y < 2 ^ log2 }
    ensures { row.new ≡ map (λ x. model.planar log2 refs.now x y) (below (2 ^ log2)) }
{
    let n = side(log2);
    let left = u32::from(refs[2 * n - (y + 1)]);
    let corner = u32::from(refs[3 * n + 1]);
    let bottom = u32::from(refs[n - 1]);
    let up = (n - 1 - y) as u32;
    let down = y as u32 + 1;
    for x in 0..n {
        let top = u32::from(refs[2 * n + (x + 1)]);
        let across = (n - 1 - x) as u32 * left + (x as u32 + 1) * corner;
        let along = up * top + down * bottom;
        row[x] = ((across + along + n as u32) >> (log2 + 1)) as u8;
    }
}

/// One row of DC prediction, around this mean; `edges` says whether the block's edges are smoothed.
#[inline(always)]
pub(crate) fn dc_row(
    component: u32,
    edges: bool,
    log2: u32,
    refs: &[u8],
    mean: u32,
    y: usize,
    row: &mut [u8],
)
    requires edges { edges ≡ model.has_edges component log2 }
    requires low { 3 ≤ log2 }
    requires high { log2 ≤ 5 }
    requires whole { length refs.now ≡ 4 * 2 ^ log2 + 1 }
    requires row { length row.old ≡ 2 ^ log2 }
    requires y { y < 2 ^ log2 }
    requires mean { mean ≡ model.mean log2 refs.now }
    requires fits { mean ≤ 255 }
    ensures { row.new ≡ map (λ x. model.dc component log2 refs.now x y) (below (2 ^ log2)) }
{
    let n = side(log2);
    row.fill(mean as u8);
    if edges {
        let left = u32::from(refs[2 * n - (y + 1)]);
        if y == 0 {
            for x in 1..n {
                row[x] = ((u32::from(refs[2 * n + (x + 1)]) + 3 * mean + 2) >> 2) as u8;
            }
            row[0] = ((left + 2 * mean + u32::from(refs[2 * n + 1]) + 2) >> 2) as u8;
        } else {
            row[0] = ((left + 3 * mean + 2) >> 2) as u8;
        }
    }
}
