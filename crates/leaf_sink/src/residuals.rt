//! The levels of a coding unit.

/// The levels of the three components of a coding unit, each in rows from the top, or `None` where the component has none
/// (cbf_luma, cbf_cb, cbf_cr, 7.4.9.8).
#[derive(Clone, Copy)]
pub struct Residuals<'a> {
    pub luma: Option<&'a [i16]>,
    pub cb: Option<&'a [i16]>,
    pub cr: Option<&'a [i16]>,
}
