//! Frames as paint scripts: the lines that turn what a desktop shows into the next frame.
#![tactic(auto)]

mod blocks;
mod compare;
mod guesses;
mod lines;
mod moves;
mod painter;
mod pieces;
mod plans;
mod rows;
mod squares;
mod strips;

pub use painter::FramePainter;

#[cfg(test)]
mod tests;
