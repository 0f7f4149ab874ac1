//! The names of a symbol file that commands need.
ghost use Rattle.std.specs.Prelude.{◌≡◌};
ghost use Rattle.kernel_records.specs.Need.{need_text};

/// A name of a symbol file that a command needs: a symbol, or a member of a user type.
#[derive(Clone, Copy, Debug, PartialEq, Eq)]
pub enum Need {
    /// The symbol `init_task`.
    InitTask,
    /// The symbol `init_files`.
    InitFiles,
    /// The root of the kernel's page tables: the symbol `init_top_pgt`, `init_level4_pgt` or `swapper_pg_dir`.
    SwapperPgDir,
    /// The member `comm` of `task_struct`.
    TaskStructComm,
    /// The member `pid` of `task_struct`.
    TaskStructPid,
    /// The member `files` of `task_struct`.
    TaskStructFiles,
    /// The member `tasks` of `task_struct`.
    TaskStructTasks,
    /// The member `next` of `list_head`.
    ListHeadNext,
    /// The member `tgid` of `task_struct`.
    TaskStructTgid,
    /// The member `real_parent` of `task_struct`.
    TaskStructRealParent,
    /// The member `mm` of `task_struct`.
    TaskStructMm,
    /// The member `pgd` of `mm_struct`.
    MmStructPgd,
    /// The member `f_path` of `file`.
    FileFPath,
    /// The member `mnt` of `path`.
    PathMnt,
    /// The member `dentry` of `path`.
    PathDentry,
    /// The member `d_parent` of `dentry`.
    DentryDParent,
    /// The member `d_name` of `dentry`.
    DentryDName,
    /// The member `name` of `qstr`.
    QstrName,
    /// The member `mnt_parent` of `mount`.
    MountMntParent,
    /// The member `mnt_mountpoint` of `mount`.
    MountMntMountpoint,
    /// The member `mnt` of `mount`.
    MountMnt,
    /// The member `mnt_root` of `vfsmount`.
    VfsmountMntRoot,
    /// The member `mmap` of `mm_struct`.
    MmStructMmap,
    /// The member `vm_start` of `vm_area_struct`.
    VmAreaStructVmStart,
    /// The member `vm_end` of `vm_area_struct`.
    VmAreaStructVmEnd,
    /// The member `vm_next` of `vm_area_struct`.
    VmAreaStructVmNext,
    /// The member `vm_flags` of `vm_area_struct`.
    VmAreaStructVmFlags,
    /// The member `vm_pgoff` of `vm_area_struct`.
    VmAreaStructVmPgoff,
    /// The member `vm_file` of `vm_area_struct`.
    VmAreaStructVmFile,
    /// The member `fdt` of `files_struct`.
    FilesStructFdt,
    /// The member `max_fds` of `fdtable`.
    FdtableMaxFds,
    /// The member `fd` of `fdtable`.
    FdtableFd,
    /// The symbol `modules`.
    Modules,
    /// The member `list` of `module`.
    ModuleList,
    /// The member `name` of `module`.
    ModuleName,
    /// The symbol `sys_call_table`.
    SysCallTable,
}

/// The text of a need: the symbol's name, or the type and its member joined by a dot. The three symbols of the root have
/// the text `swapper_pg_dir`.
pub fn need_text(need: Need) -> &'static str
    ensures { result.now ≡ need_text need }
{
    match need {
        Need::InitTask => "init_task",
        Need::InitFiles => "init_files",
        Need::SwapperPgDir => "swapper_pg_dir",
        Need::TaskStructComm => "task_struct.comm",
        Need::TaskStructPid => "task_struct.pid",
        Need::TaskStructFiles => "task_struct.files",
        Need::TaskStructTasks => "task_struct.tasks",
        Need::ListHeadNext => "list_head.next",
        Need::TaskStructTgid => "task_struct.tgid",
        Need::TaskStructRealParent => "task_struct.real_parent",
        Need::TaskStructMm => "task_struct.mm",
        Need::MmStructPgd => "mm_struct.pgd",
        Need::FileFPath => "file.f_path",
        Need::PathMnt => "path.mnt",
        Need::PathDentry => "path.dentry",
        Need::DentryDParent => "dentry.d_parent",
        Need::DentryDName => "dentry.d_name",
        Need::QstrName => "qstr.name",
        Need::MountMntParent => "mount.mnt_parent",
        Need::MountMntMountpoint => "mount.mnt_mountpoint",
        Need::MountMnt => "mount.mnt",
        Need::VfsmountMntRoot => "vfsmount.mnt_root",
        Need::MmStructMmap => "mm_struct.mmap",
        Need::VmAreaStructVmStart => "vm_area_struct.vm_start",
        Need::VmAreaStructVmEnd => "vm_area_struct.vm_end",
        Need::VmAreaStructVmNext => "vm_area_struct.vm_next",
        Need::VmAreaStructVmFlags => "vm_area_struct.vm_flags",
        Need::VmAreaStructVmPgoff => "vm_area_struct.vm_pgoff",
        Need::VmAreaStructVmFile => "vm_area_struct.vm_file",
        Need::FilesStructFdt => "files_struct.fdt",
        Need::FdtableMaxFds => "fdtable.max_fds",
        Need::FdtableFd => "fdtable.fd",
        Need::Modules => "modules",
        Need::ModuleList => "module.list",
        Need::ModuleName => "module.name",
        Need::SysCallTable => "sys_call_table",
    }
}
