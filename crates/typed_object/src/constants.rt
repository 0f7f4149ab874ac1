//! Names of an enum's numbers.
ghost use Rattle.std.specs.Prelude.{◌≡◌, find, IfOk};
ghost use Rattle.std.specs.Option.{option_copied};
ghost use Rattle.std.specs.Ordering.{int_eq};
ghost use Rattle.kernel_records.specs.Whole.{whole};
ghost use Rattle.typed_object.specs.Value.{name_of};

use isf_reader::Constant;
use layer_base::{Name, Number};
use std::alloc::{AllocError, Global};

fn is_number(value: i128, number: Number) -> bool
    ensures { result ≡ int_eq value (whole number) }
{
    match number {
        Number::Unsigned(number) => 0 <= value && value.cast_unsigned() == number,
        Number::Signed(number) => value == number,
    }
}

fn constant_of(number: Number, constants: &[Constant]) -> Option<&Constant>
    ensures { option_copied result ≡ find (λ constant. int_eq constant.value (whole number)) constants.now }
{
    constants
        .iter()
        .find(|constant| is_number(constant.value, number))
}

/// The first name that constants have for a number. They stand by value and then by name in byte order.
pub(crate) fn name_of(
    alloc: Global,
    number: Number,
    constants: &[Constant],
) -> Result<Option<Name>, AllocError>
    ensures { IfOk result (λ name. name ≡ name_of number constants.now) }
{
    match constant_of(number, constants) {
        Some(constant) => Ok(Some(Name::from(Vec::from_slice(alloc, constant.name.items())?))),
        None => Ok(None),
    }
}
