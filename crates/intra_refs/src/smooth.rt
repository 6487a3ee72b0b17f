//! Smoothing reference samples (8.4.4.2.3).
ghost use Rattle.std.specs.Prelude.{◌≡◌, ◌≤◌, length};
ghost use Rattle.h265_model.specs.Predict.{smoothed};

/// Smooths a line: each sample but the two ends with its neighbours.
pub(crate) fn smooth(line: &[u8], out: &mut [u8])
    requires same { length line.now ≡ length out.old }
    requires some { 2 ≤ length line.now }
    ensures { out.new ≡ smoothed line.now }
{
    let last = line.len() - 1;
    out[0] = line[0];
    for i in 1..last {
        let sum = u16::from(line[i - 1]) + 2 * u16::from(line[i]) + u16::from(line[i + 1]) + 2;
        out[i] = (sum / 4) as u8;
    }
    out[last] = line[last];
}
