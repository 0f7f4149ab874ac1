//! The fields of the structs of a made kernel.
ghost use Rattle.std.specs.Prelude.{◌≡◌, map};
ghost use Rattle.image_maker.specs.Seen.{field_seen};
ghost use Rattle.image_maker.specs.Structures.{fields_of};

use crate::structure::{FieldType, Structure};

// A field's name, type and offset.
pub(crate) type FieldRow = (&'static str, FieldType, u32);

pub(crate) fn fields_of(structure: Structure) -> &'static [FieldRow]
    ensures { map field_seen result.now ≡ fields_of structure }
{
    match structure {
        Structure::ListHead => &[
            ("next", FieldType::Pointer, 0),
            ("prev", FieldType::Pointer, 8),
        ],
        Structure::TaskStruct => &[
            ("__state", FieldType::UnsignedInt, 0),
            ("tasks", FieldType::Struct(Structure::ListHead), 16),
            ("mm", FieldType::Pointer, 32),
            ("pid", FieldType::Int, 48),
            ("tgid", FieldType::Int, 52),
            ("real_parent", FieldType::Pointer, 56),
            ("files", FieldType::Pointer, 64),
            ("comm", FieldType::Chars(16), 80),
        ],
        Structure::MmStruct => &[
            ("mmap", FieldType::Pointer, 0),
            ("pgd", FieldType::Pointer, 8),
        ],
        Structure::VmAreaStruct => &[
            ("vm_start", FieldType::UnsignedLong, 0),
            ("vm_end", FieldType::UnsignedLong, 8),
            ("vm_next", FieldType::Pointer, 16),
            ("vm_flags", FieldType::UnsignedLong, 24),
            ("vm_pgoff", FieldType::UnsignedLong, 32),
            ("vm_file", FieldType::Pointer, 40),
        ],
        Structure::FilesStruct => &[("fdt", FieldType::Pointer, 0)],
        Structure::Fdtable => &[
            ("max_fds", FieldType::UnsignedInt, 0),
            ("fd", FieldType::Pointer, 8),
        ],
        Structure::Path => &[
            ("mnt", FieldType::Pointer, 0),
            ("dentry", FieldType::Pointer, 8),
        ],
        Structure::File => &[("f_path", FieldType::Struct(Structure::Path), 0)],
        Structure::Qstr => &[("name", FieldType::Pointer, 8)],
        Structure::Dentry => &[
            ("d_parent", FieldType::Pointer, 0),
            ("d_name", FieldType::Struct(Structure::Qstr), 8),
            ("d_inode", FieldType::Pointer, 24),
            ("d_op", FieldType::Pointer, 32),
        ],
        Structure::Inode => &[("i_ino", FieldType::UnsignedLong, 0)],
        Structure::DentryOperations => &[("d_dname", FieldType::Pointer, 0)],
        Structure::Vfsmount => &[("mnt_root", FieldType::Pointer, 0)],
        Structure::Mount => &[
            ("mnt_parent", FieldType::Pointer, 0),
            ("mnt_mountpoint", FieldType::Pointer, 8),
            ("mnt", FieldType::Struct(Structure::Vfsmount), 16),
        ],
        Structure::ModuleLayout => &[("size", FieldType::UnsignedInt, 0)],
        Structure::Module => &[
            ("list", FieldType::Struct(Structure::ListHead), 8),
            ("name", FieldType::Chars(56), 24),
            (
                "core_layout",
                FieldType::Struct(Structure::ModuleLayout),
                80,
            ),
            (
                "init_layout",
                FieldType::Struct(Structure::ModuleLayout),
                88,
            ),
        ],
    }
}
