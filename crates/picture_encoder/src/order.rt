//! Where a picture stands after the last IDR picture (Rec. ITU-T H.265, 8.3.1).
ghost use Rattle.std.specs.Prelude.{◌≡◌, ◌<◌, ◌%◌, true};
ghost use Rattle.h265_model.specs.Stream.{is_idr, order_count};

/// Whether the picture with this number is an IDR picture: the first, and each whose number `key` divides.
pub(crate) fn is_idr(key: u32, number: u32) -> bool
    ensures { result ≡ is_idr key number }
{
    number == 0 || key > 0 && number % key == 0
}

/// slice_pic_order_cnt_lsb (7.4.7.1): the low 8 bits of the picture order count.
pub(crate) fn order_bits(key: u32, number: u32) -> u32
    ensures value { result ≡ order_count key number % 256 }
    ensures low { result < 256 }
    ensures idr { is_idr key number ≡ true → result ≡ 0 }
{
    let count = if key == 0 { number } else { number % key };
    count % 256
}
