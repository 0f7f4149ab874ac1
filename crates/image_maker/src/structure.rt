//! The structs of a made kernel.
ghost use Rattle.std.specs.Prelude.{◌≡◌};
ghost use Rattle.image_maker.specs.Structures.{structures, structure_name, structure_size};

#[derive(Clone, Copy, Debug)]
pub(crate) enum Structure {
    ListHead,
    TaskStruct,
    MmStruct,
    VmAreaStruct,
    FilesStruct,
    Fdtable,
    Path,
    File,
    Qstr,
    Dentry,
    Inode,
    DentryOperations,
    Vfsmount,
    Mount,
    ModuleLayout,
    Module,
}

// The type of a field. Pointers are pointers to `void`.
#[derive(Clone, Copy, Debug)]
pub(crate) enum FieldType {
    Int,
    UnsignedInt,
    UnsignedLong,
    Pointer,
    Chars(u32),
    Struct(Structure),
}

// All of them, in the order of the table.
pub(crate) fn structures() -> &'static [Structure]
    ensures { result.now ≡ structures }
{
    &[
        Structure::ListHead,
        Structure::TaskStruct,
        Structure::MmStruct,
        Structure::VmAreaStruct,
        Structure::FilesStruct,
        Structure::Fdtable,
        Structure::Path,
        Structure::File,
        Structure::Qstr,
        Structure::Dentry,
        Structure::Inode,
        Structure::DentryOperations,
        Structure::Vfsmount,
        Structure::Mount,
        Structure::ModuleLayout,
        Structure::Module,
    ]
}

pub(crate) fn structure_name(structure: Structure) -> &'static str
    ensures { result.now ≡ structure_name structure }
{
    match structure {
        Structure::ListHead => "list_head",
        Structure::TaskStruct => "task_struct",
        Structure::MmStruct => "mm_struct",
        Structure::VmAreaStruct => "vm_area_struct",
        Structure::FilesStruct => "files_struct",
        Structure::Fdtable => "fdtable",
        Structure::Path => "path",
        Structure::File => "file",
        Structure::Qstr => "qstr",
        Structure::Dentry => "dentry",
        Structure::Inode => "inode",
        Structure::DentryOperations => "dentry_operations",
        Structure::Vfsmount => "vfsmount",
        Structure::Mount => "mount",
        Structure::ModuleLayout => "module_layout",
        Structure::Module => "module",
    }
}

pub(crate) fn structure_size(structure: Structure) -> u32
    ensures { result ≡ structure_size structure }
{
    match structure {
        Structure::ListHead => 16,
        Structure::TaskStruct => 256,
        Structure::MmStruct => 64,
        Structure::VmAreaStruct => 64,
        Structure::FilesStruct => 16,
        Structure::Fdtable => 32,
        Structure::Path => 16,
        Structure::File => 32,
        Structure::Qstr => 16,
        Structure::Dentry => 64,
        Structure::Inode => 16,
        Structure::DentryOperations => 8,
        Structure::Vfsmount => 16,
        Structure::Mount => 48,
        Structure::ModuleLayout => 8,
        Structure::Module => 128,
    }
}
