//! A desktop, and the encoder of the pictures that are cut of it.
ghost use Rattle.std.specs.Prelude.{◌≡◌, ◌≤◌, ◌<◌, ◌^◌, ◌-◌, ◌+◌, ◌++◌, ◌∷◌, [], List, length, false, IfOk, OnOk};
ghost use Rattle.recorder_model.specs.declared.line.Line.{Line};
ghost use Rattle.recorder_model.specs.declared.line.Line.TheVariants as line;
ghost use Rattle.h265_model.specs.Settings as model;
ghost use Rattle.recorder_model.specs.Script.{is_cut};
ghost use Rattle.command_line.specs.Views.{settings_view, IsWithinLimits};
ghost use Rattle.desk_surface.specs.Damage.{HasPixels};
ghost use Rattle.screenrec.specs.Stored.{stream_after, cut_piece};
ghost use Rattle.screenrec.specs.Played.{HasPlayed, IsPlayed};

use crate::coder::Coder;
use command_line::Settings;
use desk_surface::Surface;
use h265_model::NoMemory;
use recorder_model::Line;
use std::alloc::Global;

/// Paints lines on one desktop, and codes the pictures that they cut, on the caller's thread.
#[derive(Drop)]
pub struct Stage {
    surface: Surface,
    encoder: Coder,
    // How many pictures were cut.
    cuts: u32,
}

impl Stage {
    /// A black desktop of this size, and an encoder that has coded nothing.
    ///
    /// # Errors
    ///
    /// `NoMemory` where the allocator refuses the desktop or the encoder.
    pub fn new(alloc: Global, settings: &Settings) -> Result<Stage, NoMemory>
        requires { IsWithinLimits settings.now }
        ensures { IfOk result (λ stage. HasPlayed (settings_view settings.now) stage []) }
    {
        let surface = Surface::new(alloc, settings.size)?;
        let encoder = Coder::new(alloc, settings)?;
        Ok(Stage {
            surface,
            encoder,
            cuts: 0,
        })
    }

    /// How many pictures were cut.
    pub fn cuts(&self) -> u32
        ensures { result ≡ self.now.cuts }
    {
        self.cuts
    }

    /// The first piece of the stream: the parameter sets.
    ///
    /// # Errors
    ///
    /// `NoMemory` where the allocator refuses the bytes.
    pub fn first(&self) -> Result<Vec<u8>, NoMemory>
        ensures piece { IfOk result (λ piece. piece.items ≡ stream_after self.now.encoder.settings []) }
        ensures short { IfOk result (λ piece. length piece.items < 2 ^ 40) }
    {
        self.encoder.first()
    }

    /// Paints a line that is no cut.
    pub fn paint(&mut self, line: &Line)
        requires paints { is_cut line.now ≡ false }
        requires pixels { HasPixels line.now }
        ensures played { (settings : model.Settings) (done : List Line) → HasPlayed settings self.old done → HasPlayed settings self.new (done ++ line.now ∷ []) }
        ensures cuts { self.new.cuts ≡ self.old.cuts }
    {
        self.surface.apply(line);
    }

    /// Cuts a picture, and gives its piece of the stream.
    ///
    /// # Errors
    ///
    /// `NoMemory` where the allocator refuses something. Nothing more may then be played.
    pub fn cut(&mut self) -> Result<Vec<u8>, NoMemory>
        requires played { IsPlayed self.old }
        requires few { self.old.cuts < 2 ^ 32 - 1 }
        ensures played { OnOk result ((settings : model.Settings) (done : List Line) → HasPlayed settings self.old done → HasPlayed settings self.new (done ++ line.Cut ∷ [])) }
        ensures cuts { OnOk result (self.new.cuts ≡ self.old.cuts + 1) }
        ensures piece { IfOk result (λ piece. (settings : model.Settings) (done : List Line) → HasPlayed settings self.old done → piece.items ≡ cut_piece settings done) }
        ensures short { IfOk result (λ piece. length piece.items < 2 ^ 40) }
    {
        let job = self.surface.cut_job(self.cuts)?;
        let piece = self.encoder.next(&job)?;
        self.cuts += 1;
        Ok(piece)
    }
}
