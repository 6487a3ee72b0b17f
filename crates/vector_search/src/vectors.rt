//! The vectors that are tried, in order.
ghost use Rattle.std.specs.Prelude.{◌≡◌, ◌<◌, ◌≤◌, pos, neg_ℤ};
ghost use Rattle.vector_search.specs.Copies.{IsNear, tried};

use h265_model::Vector;

/// How many vectors are tried.
pub(crate) const VECTORS: u32 = 257;

// A part of a vector that goes right or down.
fn ahead(distance: u32) -> i32
    requires { distance ≤ 64 }
    ensures value { result ≡ pos distance }
{
    distance as i32
}

// A part of a vector that goes left or up.
fn back(distance: u32) -> i32
    requires { distance ≤ 64 }
    ensures value { result ≡ neg_ℤ (pos distance) }
{
    -(distance as i32)
}

/// The vector of this number: none, and then up, down, left and right by each distance from 1 on.
pub(crate) fn vector_at(number: u32) -> Vector
    requires { number < 257 }
    ensures tried { result ≡ tried number }
    ensures near { IsNear result }
{
    if number == 0 {
        return Vector { x: 0, y: 0 };
    }
    let distance = (number - 1) / 4 + 1;
    match (number - 1) % 4 {
        0 => Vector {
            x: 0,
            y: back(distance),
        },
        1 => Vector {
            x: 0,
            y: ahead(distance),
        },
        2 => Vector {
            x: back(distance),
            y: 0,
        },
        _ => Vector {
            x: ahead(distance),
            y: 0,
        },
    }
}
