//! The samples of tiles.
ghost use Rattle.std.specs.Prelude.{◌≡◌, ℕ, ◌+◌, ◌*◌, ◌<◌, ◌≤◌, ◌++◌, OnOk, IfOk, map, flat_map, length};
ghost use Rattle.std.specs.List.{All};
ghost use Rattle.h265_model.specs.Plain.{coded, ctus, below, ctu_x, ctu_y, place_values};
ghost use Rattle.h265_model.specs.Tiles.{tile_count, tile_samples};
ghost use Rattle.px_plane.specs.Planes.{picture_of};

use h265_model::NoMemory;
use px_plane::Picture;
use std::alloc::Global;

const ZEROS: [u8; 32] = [0; 32];

// How many of 32 places of a row, from (x, y) on, lie in the coded picture.
fn places_within(picture: &Picture, x: u32, y: u32) -> u32
    requires { x < coded picture.now.size.w }
    ensures most { result ≤ 32 }
    ensures across { x + result ≤ coded picture.now.size.w }
    ensures down { 0 < result → y < coded picture.now.size.h }
    ensures outside { (component i : ℕ) → result ≤ i → i < 32 → picture_of picture.now component (x + i) y ≡ 0 }
{
    let size = picture.size();
    let (w, h) = ((size.w() + 7) / 8 * 8, (size.h() + 7) / 8 * 8);
    if y < h { (w - x).min(32) } else { 0 }
}

// Adds the samples of so many places of a row, from (x, y) on.
fn append_front(
    out: &mut Vec<u8>,
    picture: &Picture,
    component: u32,
    x: u32,
    y: u32,
    count: u32,
) -> Result<(), NoMemory>
    requires component { component < 3 }
    requires across { x + count ≤ coded picture.now.size.w }
    requires down { 0 < count → y < coded picture.now.size.h }
    ensures { OnOk result (out.new.items ≡ out.old.items ++ map (λ i. picture_of picture.now component (x + i) y) (below count)) }
{
    if count > 0 {
        out.extend_from_slice(picture.row(component, x, y, count))?;
    }
    Ok(())
}

// Adds a row of 32 samples from (x, y) on: 0 outside the coded picture.
fn append_row(
    out: &mut Vec<u8>,
    picture: &Picture,
    component: u32,
    x: u32,
    y: u32,
) -> Result<(), NoMemory>
    requires component { component < 3 }
    requires across { x < coded picture.now.size.w }
    ensures { OnOk result (out.new.items ≡ out.old.items ++ map (λ i. picture_of picture.now component (x + i) y) (below 32)) }
{
    let within = places_within(picture, x, y);
    append_front(out, picture, component, x, y, within)?;
    out.extend_from_slice(&ZEROS[within as usize..])?;
    Ok(())
}

// Adds the samples of a component of the tile at (x, y), in rows from the top.
fn append_plane(
    out: &mut Vec<u8>,
    picture: &Picture,
    component: u32,
    x: u32,
    y: u32,
) -> Result<(), NoMemory>
    requires component { component < 3 }
    requires across { x < coded picture.now.size.w }
    requires down { y < 8160 }
    ensures { OnOk result (out.new.items ≡ out.old.items ++ place_values 32 32 (λ i j. picture_of picture.now component (x + i) (y + j))) }
{
    for row in 0..32 {
        append_row(out, picture, component, x, y + row)?;
    }
    Ok(())
}

// Adds the samples of a tile, where `across` tiles stand side by side.
fn append_tile(out: &mut Vec<u8>, picture: &Picture, across: u32, tile: u32) -> Result<(), NoMemory>
    requires across { across ≡ ctus picture.now.size.w }
    requires tile { tile < tile_count picture.now.size }
    ensures { OnOk result (out.new.items ≡ out.old.items ++ tile_samples picture.now.size (picture_of picture.now) tile) }
{
    let _size = picture.size();
    let (x, y) = (tile % across * 32, tile / across * 32);
    append_plane(out, picture, 0, x, y)?;
    append_plane(out, picture, 1, x, y)?;
    append_plane(out, picture, 2, x, y)?;
    Ok(())
}

/// The samples of the listed tiles, each G, B and R in rows of 32: 0 outside the desktop.
pub(crate) fn samples_of(
    alloc: Global,
    picture: &Picture,
    tiles: &[u32],
) -> Result<Vec<u8>, NoMemory>
    requires { All (λ t. t < tile_count picture.now.size) tiles.now }
    ensures { IfOk result (λ samples. samples.items ≡ flat_map (tile_samples picture.now.size (picture_of picture.now)) tiles.now) }
{
    let across = (picture.size().w() + 31) / 32;
    let mut samples = Vec::new(alloc);
    samples.reserve(tiles.len().saturating_mul(3072))?;
    for place in 0..tiles.len() {
        append_tile(&mut samples, picture, across, tiles[place])?;
    }
    Ok(samples)
}
