//! Tables of syntax elements, written and read (7.2, 7.3).
ghost use Rattle.std.specs.Prelude.{◌≡◌, ◌≤◌, ◌++◌, ◌∷◌, [], OnOk, IsTrue, None, Some, Ok, Err, MatchOption, MatchResult};
ghost use Rattle.h265_model.specs.Fields.{element_bits, fields_bits, read_element, read_fields, read_trailing};
ghost use Rattle.h265_model.specs.Bits.{read_u};
ghost use Rattle.bit_string.specs.Tables.{descriptor_of, field_of, fields_of, is_wide, is_writable, all_wide, all_writable};

use crate::{BitReader, BitWriter};
use h265_model::NoMemory;

/// How a syntax element is coded (7.2).
#[derive(Clone, Copy, Debug, PartialEq, Eq)]
pub enum Descriptor {
    /// u(n)
    U(u32),
    /// ue(v); a signed element of value 0 is coded as ue(v) of 0
    Ue,
}

/// A field: its number in its table, its descriptor and its value.
#[derive(Clone, Copy, Debug, PartialEq, Eq)]
pub struct Field {
    pub number: u32,
    pub coding: Descriptor,
    pub value: u32,
}

/// Writes each field of a table, one after another.
///
/// After `NoMemory` the first of them may have been written.
pub fn write_fields(out: &mut BitWriter, fields: &[Field]) -> Result<(), NoMemory>
    requires { IsTrue (all_writable (fields_of fields.now)) }
    ensures { OnOk result (out.new ≡ out.old ++ fields_bits (fields_of fields.now)) }
{
    for field in fields {
        write_field(out, *field)?;
    }
    Ok(())
}

fn write_field(out: &mut BitWriter, field: Field) -> Result<(), NoMemory>
    requires { IsTrue (is_writable (field_of field)) }
    ensures { OnOk result (out.new ≡ out.old ++ element_bits (field_of field).coding field.value) }
{
    match field.coding {
        Descriptor::Ue => out.ue(field.value),
        Descriptor::U(width) => {
            if width > 32 {
                out.put(width - 32, 0)?;
                return out.put(32, field.value);
            }
            out.put(width, field.value)
        }
    }
}

/// Reads each field of a table, and answers the number of the first one that differs or at which the bits end.
pub fn read_fields(from: &mut BitReader, fields: &[Field]) -> Result<(), u32>
    requires { IsTrue (all_wide (fields_of fields.now)) }
    ensures { MatchResult result
        (λ _. read_fields (fields_of fields.now) from.old.left ≡ Ok from.new.left)
        (λ number. read_fields (fields_of fields.now) from.old.left ≡ Err number) }
{
    for field in fields {
        read_field(from, *field)?;
    }
    Ok(())
}

/// Reads a one and zeros to the byte after which nothing is left; `number` is answered where that isn't so.
pub fn read_trailing(from: &mut BitReader, number: u32) -> Result<(), u32>
    ensures { MatchResult result
        (λ _. read_trailing number from.old.left ≡ Ok tt)
        (λ n. read_trailing number from.old.left ≡ Err n) }
{
    match from.align_one() {
        None => Err(number),
        Some(()) => match from.bits(1) {
            None => Ok(()),
            Some(_) => Err(number),
        },
    }
}

/// Reads one syntax element, and nothing exactly where the bits end or the code is none.
pub fn read_element(from: &mut BitReader, coding: Descriptor) -> Option<u64>
    requires { IsTrue (is_wide (descriptor_of coding)) }
    ensures { MatchOption result
        (read_element (descriptor_of coding) from.old.left ≡ None)
        (λ value. read_element (descriptor_of coding) from.old.left ≡ Some (value, from.new.left)) }
{
    match coding {
        Descriptor::Ue => from.ue().map(u64::from),
        Descriptor::U(width) => read_bits(from, width),
    }
}

fn read_field(from: &mut BitReader, field: Field) -> Result<(), u32>
    requires { IsTrue (is_wide (field_of field).coding) }
    ensures { MatchResult result
        (λ _. read_fields (field_of field ∷ []) from.old.left ≡ Ok from.new.left)
        (λ number. read_fields (field_of field ∷ []) from.old.left ≡ Err number) }
{
    match read_element(from, field.coding) {
        Some(value) if value == u64::from(field.value) => Ok(()),
        _ => Err(field.number),
    }
}

fn read_bits(from: &mut BitReader, width: u32) -> Option<u64>
    requires { width ≤ 64 }
    ensures { MatchOption result
        (read_u width from.old.left ≡ None)
        (λ value. read_u width from.old.left ≡ Some (value, from.new.left)) }
{
    if width <= 32 {
        return from.bits(width).map(u64::from);
    }
    let high = u64::from(from.bits(width - 32)?);
    let low = u64::from(from.bits(32)?);
    Some(high << 32 | low)
}
