//! What each command needs of a symbol file, in the order in which it is looked for.
ghost use Rattle.std.specs.Prelude.{◌≡◌};
ghost use Rattle.kernel_records.specs.Groups.{find_needs, task_needs, space_needs, path_needs, area_needs, maps_needs, lsof_needs, module_needs, syscall_needs};

use crate::Need;

/// What `kernel` needs, and every command over the kernel with it.
pub fn find_needs() -> &'static [Need]
    ensures { result.now ≡ find_needs }
{
    &[
        Need::InitTask,
        Need::InitFiles,
        Need::SwapperPgDir,
        Need::TaskStructComm,
        Need::TaskStructPid,
        Need::TaskStructFiles,
    ]
}

/// What a list of tasks needs.
pub fn task_needs() -> &'static [Need]
    ensures { result.now ≡ task_needs }
{
    &[
        Need::TaskStructTasks,
        Need::ListHeadNext,
        Need::TaskStructTgid,
        Need::TaskStructRealParent,
    ]
}

/// What the space of a task needs.
pub fn space_needs() -> &'static [Need]
    ensures { result.now ≡ space_needs }
{
    &[
        Need::TaskStructTasks,
        Need::ListHeadNext,
        Need::TaskStructTgid,
        Need::TaskStructRealParent,
        Need::TaskStructMm,
        Need::MmStructPgd,
    ]
}

/// What the path of a file needs.
pub fn path_needs() -> &'static [Need]
    ensures { result.now ≡ path_needs }
{
    &[
        Need::FileFPath,
        Need::PathMnt,
        Need::PathDentry,
        Need::DentryDParent,
        Need::DentryDName,
        Need::QstrName,
        Need::MountMntParent,
        Need::MountMntMountpoint,
        Need::MountMnt,
        Need::VfsmountMntRoot,
    ]
}

/// What the areas of a memory descriptor need.
pub fn area_needs() -> &'static [Need]
    ensures { result.now ≡ area_needs }
{
    &[
        Need::MmStructMmap,
        Need::VmAreaStructVmStart,
        Need::VmAreaStructVmEnd,
        Need::VmAreaStructVmNext,
        Need::VmAreaStructVmFlags,
        Need::VmAreaStructVmPgoff,
        Need::VmAreaStructVmFile,
    ]
}

/// What `maps` needs.
pub fn maps_needs() -> &'static [Need]
    ensures { result.now ≡ maps_needs }
{
    &[
        Need::TaskStructTasks,
        Need::ListHeadNext,
        Need::TaskStructTgid,
        Need::TaskStructRealParent,
        Need::TaskStructMm,
        Need::MmStructMmap,
        Need::VmAreaStructVmStart,
        Need::VmAreaStructVmEnd,
        Need::VmAreaStructVmNext,
        Need::VmAreaStructVmFlags,
        Need::VmAreaStructVmPgoff,
        Need::VmAreaStructVmFile,
        Need::FileFPath,
        Need::PathMnt,
        Need::PathDentry,
        Need::DentryDParent,
        Need::DentryDName,
        Need::QstrName,
        Need::MountMntParent,
        Need::MountMntMountpoint,
        Need::MountMnt,
        Need::VfsmountMntRoot,
    ]
}

/// What `lsof` needs.
pub fn lsof_needs() -> &'static [Need]
    ensures { result.now ≡ lsof_needs }
{
    &[
        Need::TaskStructTasks,
        Need::ListHeadNext,
        Need::TaskStructTgid,
        Need::TaskStructRealParent,
        Need::TaskStructFiles,
        Need::FilesStructFdt,
        Need::FdtableMaxFds,
        Need::FdtableFd,
        Need::FileFPath,
        Need::PathMnt,
        Need::PathDentry,
        Need::DentryDParent,
        Need::DentryDName,
        Need::QstrName,
        Need::MountMntParent,
        Need::MountMntMountpoint,
        Need::MountMnt,
        Need::VfsmountMntRoot,
    ]
}

/// What `lsmod` needs.
pub fn module_needs() -> &'static [Need]
    ensures { result.now ≡ module_needs }
{
    &[
        Need::Modules,
        Need::ModuleList,
        Need::ListHeadNext,
        Need::ModuleName,
    ]
}

/// What `check_syscall` needs.
pub fn syscall_needs() -> &'static [Need]
    ensures { result.now ≡ syscall_needs }
{
    &[Need::SysCallTable]
}
