//! The context numbers of a residual's bins. A component is 0, 1 or 2, and `log2` is the base-2 logarithm of a block's side: 3, 4 or 5.
ghost use Rattle.std.specs.Prelude.{◌≡◌, ◌<◌, ◌≤◌, ◌^◌, ◌*◌, ◌-◌, ◌==◌, if◌then◌else◌};
ghost use Rattle.h265_model.specs.Residual as residual;

use h265_model::syntax_elements::{
    CODED_SUB_BLOCK_FLAG, COEFF_ABS_LEVEL_GREATER1_FLAG, COEFF_ABS_LEVEL_GREATER2_FLAG,
    LAST_SIG_COEFF_X_PREFIX, LAST_SIG_COEFF_Y_PREFIX, SIG_COEFF_FLAG,
};

/// The context of bin `index` of last_sig_coeff_x_prefix, or of last_sig_coeff_y_prefix where `vertical` holds (9.3.4.2.3).
#[inline(always)]
#[tactic(auto, unfolding(h265_model::specs::Residual::last_context))]
pub fn last_context(component: u32, log2: u32, vertical: bool, index: u32) -> u32
    requires component { component < 3 }
    requires low { 3 ≤ log2 }
    requires high { log2 ≤ 5 }
    requires index { index < 2 * log2 - 1 }
    ensures { result ≡ residual.last_context component log2 vertical index }
{
    let first = if vertical {
        LAST_SIG_COEFF_Y_PREFIX
    } else {
        LAST_SIG_COEFF_X_PREFIX
    };
    if component == 0 {
        first + 3 * (log2 - 2) + ((log2 - 1) >> 2) + (index >> ((log2 + 1) >> 2))
    } else {
        first + 15 + (index >> (log2 - 2))
    }
}

/// The context of coded_sub_block_flag, by the flags of the sub-blocks on the right and below (9.3.4.2.4).
#[inline(always)]
#[tactic(auto, unfolding(h265_model::specs::Residual::sub_block_context))]
pub fn sub_block_context(component: u32, right: bool, below: bool) -> u32
    requires { component < 3 }
    ensures { result ≡ residual.sub_block_context component right below }
{
    CODED_SUB_BLOCK_FLAG + u32::from(right || below) + if component == 0 { 0 } else { 2 }
}

// The part of sigCtx that the place in its sub-block gives: 16 places in rows for each pair of flags of the sub-blocks below and on the right.
static SIG_WITHIN: [u8; 64] = [
    2, 1, 1, 0, 1, 1, 0, 0, 1, 0, 0, 0, 0, 0, 0, 0, 2, 2, 2, 2, 1, 1, 1, 1, 0, 0, 0, 0, 0, 0, 0, 0,
    2, 1, 0, 0, 2, 1, 0, 0, 2, 1, 0, 0, 2, 1, 0, 0, 2, 2, 2, 2, 2, 2, 2, 2, 2, 2, 2, 2, 2, 2, 2, 2,
];

// The part of sigCtx that the place in its sub-block gives, by the flags of the sub-blocks on the right and below.
#[inline(always)]
fn sig_within(right: bool, below: bool, x: u32, y: u32) -> u32
    requires x { x < 4 }
    requires y { y < 4 }
    ensures { result ≡ residual.sig_within right below x y }
{
    let flags = 2 * u32::from(below) + u32::from(right);
    u32::from(SIG_WITHIN[(16 * flags + 4 * y + x) as usize])
}

// The part of sigCtx that the block gives, and whether its first sub-block is meant.
#[inline(always)]
fn sig_added(component: u32, log2: u32, scan: u32, first: bool) -> u32
    ensures { result ≡ residual.sig_added component log2 scan first }
{
    if component > 0 {
        return if log2 == 3 { 9 } else { 12 };
    }
    let side = if log2 != 3 {
        21
    } else if scan == 0 {
        9
    } else {
        15
    };
    if first { side } else { 3 + side }
}

/// The context of sig_coeff_flag at the place (x, y) of the sub-block that is number `sub_x` from the left and `sub_y` from the top, by the
/// flags of the sub-blocks on the right and below (9.3.4.2.5).
#[inline(always)]
#[tactic(auto, unfolding(h265_model::specs::Residual::sig_context))]
pub fn sig_context(
    component: u32,
    log2: u32,
    scan: u32,
    sub_x: u32,
    sub_y: u32,
    x: u32,
    y: u32,
    right: bool,
    below: bool,
) -> u32
    requires component { component < 3 }
    requires low { 3 ≤ log2 }
    requires high { log2 ≤ 5 }
    requires scan { scan < 3 }
    requires sub_x { sub_x < 2 ^ (log2 - 2) }
    requires sub_y { sub_y < 2 ^ (log2 - 2) }
    requires x { x < 4 }
    requires y { y < 4 }
    ensures { result ≡ residual.sig_context component log2 scan sub_x sub_y x y right below }
{
    let base = if component == 0 {
        SIG_COEFF_FLAG
    } else {
        SIG_COEFF_FLAG + 27
    };
    if sub_x + sub_y + x + y == 0 {
        return base;
    }
    base + sig_within(right, below, x, y) + sig_added(component, log2, scan, sub_x + sub_y == 0)
}

/// The context of coeff_abs_level_greater1_flag, by the context set and the counter (9.3.4.2.6).
#[inline(always)]
#[tactic(auto, unfolding(h265_model::specs::Residual::greater1_context))]
pub fn greater1_context(component: u32, set: u32, counter: u32) -> u32
    requires component { component < 3 }
    requires set { set < (if component == 0 then 4 else 2) }
    ensures { result ≡ residual.greater1_context component set counter }
{
    COEFF_ABS_LEVEL_GREATER1_FLAG + 4 * set + counter.min(3) + if component == 0 { 0 } else { 16 }
}

/// The context of coeff_abs_level_greater2_flag, by the context set (9.3.4.2.7).
#[inline(always)]
#[tactic(auto, unfolding(h265_model::specs::Residual::greater2_context))]
pub fn greater2_context(component: u32, set: u32) -> u32
    requires component { component < 3 }
    requires set { set < (if component == 0 then 4 else 2) }
    ensures { result ≡ residual.greater2_context component set }
{
    COEFF_ABS_LEVEL_GREATER2_FLAG + set + if component == 0 { 0 } else { 4 }
}
