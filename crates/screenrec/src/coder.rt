//! What codes the pictures of a recording.
ghost use Rattle.std.specs.Prelude.{◌≡◌, ◌≤◌, ◌<◌, ◌+◌, ◌-◌, ◌^◌, ◌++◌, ◌∷◌, [], List, length, IfOk, OnOk, OnErr};
ghost use Rattle.h265_model.specs.declared.extra.Extra.TheVariants.{Segments, Moves};
ghost use Rattle.h265_model.specs.Raster.{Raster};
ghost use Rattle.h265_model.specs.Stream.{pieces};
ghost use Rattle.px_plane.specs.Tiles.{IsJobOf};
ghost use Rattle.command_line.specs.Views.{settings_view, IsOfClients, IsWithinLimits};
ghost use Rattle.picture_encoder.specs.Coded.{StandsFor, TurnsInto};

use command_line::Settings;
use h265_model::{Extra, NoMemory};
use picture_encoder::{Encoder, Job};
use row_moves::MoveEncoder;
use row_segments::SegmentEncoder;
use std::alloc::Global;
use std::marker::Model;

/// An encoder of pictures in one slice each, which has coded none, with the hash of each where the settings want it.
///
/// # Errors
///
/// `NoMemory` where the allocator refuses the encoder.
pub(crate) fn encoder_for(alloc: Global, settings: &Settings) -> Result<Encoder, NoMemory>
    requires effort { settings.now.effort ≤ 2 }
    requires extra { IsOfClients settings.now.extra }
    ensures settings { IfOk result (λ encoder. encoder.settings ≡ settings_view settings.now) }
    ensures sized { IfOk result (λ encoder. encoder.last.size ≡ encoder.settings.size) }
    ensures fresh { IfOk result (λ encoder. StandsFor encoder []) }
{
    let encoder = Encoder::new(alloc, settings.size, settings.effort, settings.key)?;
    match settings.extra {
        Extra::Plain => Ok(encoder),
        Extra::Hash => Ok(encoder.with_hash()),
        Extra::Segments | Extra::Moves => unreachable!(),
    }
}

// An encoder of pictures in a slice segment for each row, which has coded none.
fn segments_for(alloc: Global, settings: &Settings) -> Result<SegmentEncoder, NoMemory>
    requires effort { settings.now.effort ≤ 2 }
    requires extra { settings.now.extra ≡ Segments }
    ensures settings { IfOk result (λ encoder. encoder.settings ≡ settings_view settings.now) }
    ensures sized { IfOk result (λ encoder. encoder.last.size ≡ encoder.settings.size) }
    ensures fresh { IfOk result (λ encoder. StandsFor encoder []) }
{
    SegmentEncoder::new(alloc, settings.size, settings.effort, settings.key)
}

// An encoder of pictures whose blocks may be copied from other places of the picture before, which has coded none.
fn moves_for(alloc: Global, settings: &Settings) -> Result<MoveEncoder, NoMemory>
    requires effort { settings.now.effort ≤ 2 }
    requires extra { settings.now.extra ≡ Moves }
    ensures settings { IfOk result (λ encoder. encoder.settings ≡ settings_view settings.now) }
    ensures sized { IfOk result (λ encoder. encoder.last.size ≡ encoder.settings.size) }
    ensures fresh { IfOk result (λ encoder. StandsFor encoder []) }
{
    MoveEncoder::new(alloc, settings.size, settings.effort, settings.key)
}

// An encoder by what it makes of a picture.
#[derive(Drop)]
enum AnyEncoder {
    // one slice
    Picture(Encoder),
    // a slice segment for each row of coding tree units
    Segment(SegmentEncoder),
    // one slice, with blocks that may be copied from other places
    Moved(MoveEncoder),
}

/// Codes the pictures of a recording on the caller's thread, each after the one before, as its settings want it.
///
/// Contracts see it as any encoder: its settings, the number of the pictures that it has coded, and the last of them.
#[derive(Drop)]
pub(crate) struct Coder {
    encoder: AnyEncoder,
}

impl Model for Coder {
    ghost use Rattle.picture_encoder.specs.Coded.{Coded};
    ghost use Rattle.screenrec.specs.Coders.{coded};

    ghost Value = { Coded };

    ghost view = { λ c. coded c.encoder };
}

impl Coder {
    /// A coder for these settings that has coded nothing.
    ///
    /// # Errors
    ///
    /// `NoMemory` where the allocator refuses the encoder.
    pub(crate) fn new(alloc: Global, settings: &Settings) -> Result<Coder, NoMemory>
        requires { IsWithinLimits settings.now }
        ensures settings { IfOk result (λ coder. coder.settings ≡ settings_view settings.now) }
        ensures sized { IfOk result (λ coder. coder.last.size ≡ coder.settings.size) }
        ensures fresh { IfOk result (λ coder. StandsFor coder []) }
    {
        let encoder = match settings.extra {
            Extra::Plain | Extra::Hash => AnyEncoder::Picture(encoder_for(alloc, settings)?),
            Extra::Segments => AnyEncoder::Segment(segments_for(alloc, settings)?),
            Extra::Moves => AnyEncoder::Moved(moves_for(alloc, settings)?),
        };
        Ok(Coder { encoder })
    }

    /// The first piece of the stream: the parameter sets.
    ///
    /// # Errors
    ///
    /// `NoMemory` where the allocator refuses the bytes.
    pub(crate) fn first(&self) -> Result<Vec<u8>, NoMemory>
        ensures piece { IfOk result (λ piece. pieces self.now.settings [] ≡ piece.items ∷ []) }
        ensures short { IfOk result (λ piece. length piece.items < 2 ^ 40) }
    {
        match &self.encoder {
            AnyEncoder::Picture(encoder) => encoder.first(),
            AnyEncoder::Segment(encoder) => encoder.first(),
            AnyEncoder::Moved(encoder) => encoder.first(),
        }
    }

    /// Lays a job over the picture before, codes the picture that it gives, and gives its piece of the stream.
    ///
    /// # Errors
    ///
    /// `NoMemory` where the allocator refuses something. The coder is then as it was.
    pub(crate) fn next(&mut self, job: &Job) -> Result<Vec<u8>, NoMemory>
        requires job { IsJobOf self.old.settings.size job.now }
        requires number { job.now.number ≡ self.old.count }
        requires few { self.old.count < 2 ^ 32 - 1 }
        ensures settings { self.new.settings ≡ self.old.settings }
        ensures sized { self.new.last.size ≡ self.new.settings.size }
        ensures coded { OnOk result ((before : List Raster) (now : Raster) → StandsFor self.old before → TurnsInto job.now self.old.last now
            → StandsFor self.new (before ++ now ∷ [])) }
        ensures piece { IfOk result (λ piece. (before : List Raster) (now : Raster) → StandsFor self.old before → TurnsInto job.now self.old.last now
            → pieces self.old.settings (before ++ now ∷ []) ≡ pieces self.old.settings before ++ piece.items ∷ []) }
        ensures short { IfOk result (λ piece. length piece.items < 2 ^ 40) }
        ensures err { OnErr result (self.new ≡ self.old) }
    {
        match &mut self.encoder {
            AnyEncoder::Picture(encoder) => encoder.next_alone(job),
            AnyEncoder::Segment(encoder) => encoder.next_alone(job),
            AnyEncoder::Moved(encoder) => encoder.next_alone(job),
        }
    }
}
