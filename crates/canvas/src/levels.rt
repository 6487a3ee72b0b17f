//! Levels on predicted samples.
ghost use Rattle.std.specs.Prelude.{◌≡◌, length, pos, ◌+ℤ◌};
ghost use Rattle.h265_model.specs.Contexts.{clip};
ghost use Rattle.h265_model.specs.Rebuild.{sums};

// A sample with a level.
#[inline(always)]
fn sum(sample: u8, level: i16) -> u8
    ensures { result ≡ clip 0 255 (pos sample +ℤ level) }
{
    i16::from(sample).saturating_add(level).clamp(0, 255) as u8
}

/// Adds levels to predicted samples, and keeps the sums from 0 to 255 (8.6.7).
pub(crate) fn add_levels(samples: &mut [u8], levels: &[i16])
    requires { length levels.now ≡ length samples.old }
    ensures { samples.new ≡ sums samples.old levels.now }
{
    for i in 0..samples.len() {
        samples[i] = sum(samples[i], levels[i]);
    }
}
