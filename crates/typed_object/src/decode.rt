//! Numbers in bytes.
ghost use Rattle.std.specs.Prelude.{◌≡◌, ◌/◌, ◌%◌, ◌^◌, ◌≤◌, length};
ghost use Rattle.byteorder.specs.Endian.{twos_complement};
ghost use Rattle.typed_object.specs.Number.{number_in, part_of, decoded};

use crate::form::Form;
use byteorder::{BigEndian, ByteOrder, LittleEndian};
use isf_reader::TypeRef;
use layer_base::Number;

const WIDTH: u32 = 128;

fn unsigned_in(form: &Form, bytes: &[u8]) -> u128
    requires small { form.now.size ≤ 16 }
    requires whole { length bytes.now ≡ form.now.size }
    ensures { result ≡ number_in form.now bytes.now }
{
    if bytes.is_empty() {
        0
    } else if form.big {
        BigEndian::read_uint128(bytes, bytes.len())
    } else {
        LittleEndian::read_uint128(bytes, bytes.len())
    }
}

fn signed_in(form: &Form, bytes: &[u8]) -> i128
    requires small { form.now.size ≤ 16 }
    requires whole { length bytes.now ≡ form.now.size }
    ensures { result ≡ twos_complement form.now.size (number_in form.now bytes.now) }
{
    if bytes.is_empty() {
        0
    } else if form.big {
        BigEndian::read_int128(bytes, bytes.len())
    } else {
        LittleEndian::read_int128(bytes, bytes.len())
    }
}

// A number without its low bits.
fn shifted(position: u32, number: u128) -> u128
    ensures { result ≡ number / 2 ^ position }
{
    if position < WIDTH {
        number >> position
    } else {
        0
    }
}

// So many low bits of a number.
fn low_bits(length: u32, number: u128) -> u128
    ensures { result ≡ number % 2 ^ length }
{
    if length < WIDTH {
        number % (1 << length)
    } else {
        number
    }
}

// What a type takes of a number: a bit field its bits, every other type the whole.
fn part_of(of: &TypeRef, number: u128) -> u128
    ensures { result ≡ part_of of.now number }
{
    match of {
        TypeRef::Bits {
            position,
            length,
            of,
        } => low_bits(*length, shifted(*position, part_of(of.get(), number))),
        _ => number,
    }
}

/// What the bytes of a type's number are.
pub(crate) fn decoded(of: &TypeRef, form: &Form, bytes: &[u8]) -> Number
    requires small { form.now.size ≤ 16 }
    requires whole { length bytes.now ≡ form.now.size }
    ensures { result ≡ decoded of.now form.now bytes.now }
{
    if form.signed {
        Number::Signed(signed_in(form, bytes))
    } else {
        Number::Unsigned(part_of(of, unsigned_in(form, bytes)))
    }
}
