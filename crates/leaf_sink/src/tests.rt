//! Sources of copies, as an independent model of the recorder in Python judges them.
ghost use Rattle.std.specs.Prelude.{◌≡◌};

use super::{Vector, has_source};
use h265_model::CodingBlock;
use px_plane::Size;
use std::test::Fail;

// Whether a block in 72 by 40 has a source there, or `None` where it isn't one.
fn judge(size: Size, block: CodingBlock, vector: Vector) -> Option<bool>
    requires { size ≡ record { w = 70; h = 40 } }
{
    if block.log2 < 3 || block.log2 > 5 || block.x >= 72 || block.y >= 40 {
        return None;
    }
    Some(has_source(size, block, vector))
}

#[test]
fn sources_lie_in_the_coded_picture(rt: HostRuntime) -> Result<(), Fail> {
    let size = Size::new(70, 40).ok_or("size")?;
    for (x, y, log2, by_x, by_y, told) in [
        (0, 0, 3, 0, 0, true),
        (0, 0, 3, -1, 0, false),
        (0, 0, 3, 0, -1, false),
        (64, 32, 3, 0, 0, true),
        (64, 32, 3, 1, 0, false),
        (64, 32, 3, 0, 1, false),
        (64, 32, 3, -64, -32, true),
        (64, 32, 3, -65, -32, false),
        (64, 32, 3, -64, -33, false),
        (32, 0, 5, 8, 8, true),
        (32, 0, 5, 9, 8, false),
        (32, 0, 5, 8, 9, false),
        (16, 16, 4, 40, 8, true),
        (16, 16, 4, 41, -16, false),
        (16, 16, 4, -16, -17, false),
        (0, 0, 3, 2147483647, 0, false),
        (0, 0, 3, 0, -2147483648, false),
    ] {
        let vector = Vector { x: by_x, y: by_y };
        assert_eq!(rt;
            judge(size, CodingBlock { x, y, log2 }, vector),
            Some(told),
            "from {x}, {y} by {by_x}, {by_y}"
        );
    }
    Ok(())
}
