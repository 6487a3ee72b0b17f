//! How far the slanted modes lean (8.4.4.2.6, intraPredAngle and invAngle).
ghost use Rattle.std.specs.Prelude.{◌≡◌, ◌<◌, ◌≤◌};
ghost use Rattle.h265_model.specs.Predict as model;
ghost use Rattle.intra_predict.specs.Sides.{leads_back, signed};

// Of the modes from 2 on, without their signs: the modes from 11 to 25 lead back.
const LEANS: [usize; 33] = [
    32, 26, 21, 17, 13, 9, 5, 2, 0, 2, 5, 9, 13, 17, 21, 26, 32, 26, 21, 17, 13, 9, 5, 2, 0, 2, 5,
    9, 13, 17, 21, 26, 32,
];

// Of the modes from 11 on, without their signs.
const INVERSE_ANGLES: [u32; 15] = [
    4096, 1638, 910, 630, 482, 390, 315, 256, 315, 390, 482, 630, 910, 1638, 4096,
];

/// Whether a mode's angle is below 0.
pub(crate) fn leads_back(mode: u32) -> bool
    ensures { result ≡ leads_back mode }
{
    mode >= 11 && mode < 26
}

/// How far a mode leads, ahead or back, at a distance of 32 samples.
pub(crate) fn lean_of(mode: u32) -> usize
    requires low { 2 ≤ mode }
    requires high { mode < 35 }
    ensures value { model.angle mode ≡ signed (leads_back mode) result }
    ensures most { result ≤ 32 }
{
    LEANS[mode as usize - 2]
}

/// The inverse of the angle of a mode that leads back, in parts of 256.
pub(crate) fn inverse_of(mode: u32) -> u32
    requires low { 11 ≤ mode }
    requires high { mode < 26 }
    ensures value { result ≡ model.inverse_angle mode }
    ensures most { result ≤ 4096 }
{
    INVERSE_ANGLES[mode as usize - 11]
}
