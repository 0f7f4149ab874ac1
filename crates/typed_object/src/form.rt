//! How numbers of types are read.
ghost use Rattle.std.specs.Prelude.{◌≡◌, ◌≤◌, IfOk};
ghost use Rattle.isf_reader.specs.Depth.{entry_named};
ghost use Rattle.typed_object.specs.Form.{form_of_kind, base_form, pointer_form, form_with_base, enum_form, unsigned, form_of, number_form};

use isf_reader::{BaseKind, BaseType, Table, TypeRef};
use type_layout::TypeFault;

/// How the number of a type is read: how many bytes it has, whether it is signed, and whether its most significant byte
/// comes first.
#[derive(Clone, Copy, Debug)]
pub(crate) struct Form {
    pub(crate) size: u64,
    pub(crate) signed: bool,
    pub(crate) big: bool,
}

const MOST_BYTES: u64 = 16;

fn form_of_kind(base: &BaseType) -> Result<Form, TypeFault>
    ensures { result ≡ form_of_kind base.now base.now.kind }
{
    match base.kind {
        BaseKind::Int | BaseKind::Char | BaseKind::Bool => Ok(Form {
            size: base.size,
            signed: base.signed,
            big: base.big,
        }),
        BaseKind::Float | BaseKind::Void => Err(TypeFault::NotNumber),
    }
}

fn base_form(table: &Table, name: &[u8]) -> Result<Form, TypeFault>
    ensures { result ≡ base_form (entry_named name.now table.now.bases) }
{
    match table.base(name) {
        Some(base) => form_of_kind(base),
        None => Err(TypeFault::NoType),
    }
}

fn pointer_form(table: &Table) -> Form
    ensures { result ≡ pointer_form table.now }
{
    match table.base(b"pointer") {
        Some(base) => Form {
            size: base.size,
            signed: false,
            big: base.big,
        },
        None => Form {
            size: 8,
            signed: false,
            big: false,
        },
    }
}

// The form of an enum of a size, over the base type of a name.
fn form_with_base(table: &Table, size: u64, base: &[u8]) -> Result<Form, TypeFault>
    ensures { result ≡ form_with_base size (entry_named base.now table.now.bases) }
{
    match table.base(base) {
        Some(base) => Ok(Form {
            size,
            signed: base.signed,
            big: base.big,
        }),
        None => Err(TypeFault::NoType),
    }
}

fn enum_form(table: &Table, name: &[u8]) -> Result<Form, TypeFault>
    ensures { result ≡ enum_form table.now (entry_named name.now table.now.enums) }
{
    match table.enumeration(name) {
        Some(enumeration) => form_with_base(table, enumeration.size, enumeration.base.items()),
        None => Err(TypeFault::NoType),
    }
}

fn unsigned(form: Form) -> Form
    ensures { result ≡ unsigned form }
{
    Form {
        size: form.size,
        signed: false,
        big: form.big,
    }
}

fn form_of(table: &Table, of: &TypeRef) -> Result<Form, TypeFault>
    ensures { result ≡ form_of table.now of.now }
{
    match of {
        TypeRef::Base(name) => base_form(table, name.items()),
        TypeRef::Pointer(_) => Ok(pointer_form(table)),
        TypeRef::Enum(name) => enum_form(table, name.items()),
        TypeRef::Bits { of, .. } => Ok(unsigned(form_of(table, of.get())?)),
        TypeRef::Array { .. }
        | TypeRef::Struct(_)
        | TypeRef::Union(_)
        | TypeRef::Class(_)
        | TypeRef::Function => Err(TypeFault::NotNumber),
    }
}

/// The form of a type's number, which has at most 16 bytes.
pub(crate) fn number_form(table: &Table, of: &TypeRef) -> Result<Form, TypeFault>
    ensures value { result ≡ number_form table.now of.now }
    ensures small { IfOk result (λ form. form.size ≤ 16) }
{
    let form = form_of(table, of)?;
    if form.size <= MOST_BYTES {
        Ok(form)
    } else {
        Err(TypeFault::TooBig)
    }
}
