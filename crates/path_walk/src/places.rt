//! What is looked up once for all paths.
ghost use Rattle.std.specs.Prelude.{◌≡◌, ◌*◌, ◌^◌, ◌<◌, option_map, IfSome};
ghost use Rattle.type_layout.specs.Member.{spot};
ghost use Rattle.path_walk.specs.Places.{ArePlaces, AreFunctions};
ghost use Rattle.path_walk.specs.Spots.{embedded};

use kernel_records::Need;
use type_layout::Place;
use typed_object::Ground;

/// Where the members stand that a path is followed by.
#[derive(Clone, Copy, Debug)]
pub(crate) struct Places<'t> {
    /// Of a file: its mount and its dentry.
    pub(crate) file_mount: Option<Place<'t>>,
    pub(crate) file_dentry: Option<Place<'t>>,
    /// Of a mount: the part that files point to, its root, the mount on which it stands, and the dentry there.
    pub(crate) mount_part: Option<Place<'t>>,
    pub(crate) mount_root: Option<Place<'t>>,
    pub(crate) mount_parent: Option<Place<'t>>,
    pub(crate) mount_point: Option<Place<'t>>,
    /// Of a dentry: its parent and its name.
    pub(crate) dentry_parent: Option<Place<'t>>,
    pub(crate) dentry_name: Option<Place<'t>>,
    /// Of a dentry: its functions; and of these, the one that writes its name.
    pub(crate) dentry_operations: Option<Place<'t>>,
    pub(crate) name_function: Option<Place<'t>>,
    /// Of a dentry: its inode; and of that, its number.
    pub(crate) dentry_inode: Option<Place<'t>>,
    pub(crate) inode_number: Option<Place<'t>>,
}

/// Where the functions are that write special names.
#[derive(Clone, Copy, Debug)]
pub(crate) struct Functions {
    pub(crate) socket: Option<u64>,
    pub(crate) pipe: Option<u64>,
    pub(crate) anon_inode: Option<u64>,
}

// The place of a member of an object that is itself a member.
fn embedded<'t>(outer: Option<Place<'t>>, inner: Option<Place<'t>>) -> Option<Place<'t>>
    requires outer_near { IfSome outer (λ place. place.offset < 33 * 2 ^ 32) }
    requires inner_near { IfSome inner (λ place. place.offset < 33 * 2 ^ 32) }
    ensures { option_map spot result ≡ embedded (option_map spot outer.entry) (option_map spot inner.entry) }
{
    let around = outer?;
    let within = inner?;
    Some(Place {
        offset: around.offset + within.offset,
        of: within.of,
    })
}

/// The places that a table has.
#[tactic(auto, unfolding(crate::specs::Spots::file_mount, crate::specs::Spots::file_dentry, crate::specs::Spots::mount_part, crate::specs::Spots::mount_root, crate::specs::Spots::mount_parent, crate::specs::Spots::mount_point, crate::specs::Spots::dentry_parent, crate::specs::Spots::dentry_name, crate::specs::Spots::dentry_operations, crate::specs::Spots::name_function, crate::specs::Spots::dentry_inode, crate::specs::Spots::inode_number))]
pub(crate) fn places_of<'t>(ground: Ground<'_, 't>) -> Places<'t>
    ensures { ArePlaces ground.entry.table.now result }
{
    let path = ground.needed_member(Need::FileFPath);
    let part = ground.needed_member(Need::MountMnt);
    let name = ground.needed_member(Need::DentryDName);
    Places {
        file_mount: embedded(path, ground.needed_member(Need::PathMnt)),
        file_dentry: embedded(path, ground.needed_member(Need::PathDentry)),
        mount_part: part,
        mount_root: embedded(part, ground.needed_member(Need::VfsmountMntRoot)),
        mount_parent: ground.needed_member(Need::MountMntParent),
        mount_point: ground.needed_member(Need::MountMntMountpoint),
        dentry_parent: ground.needed_member(Need::DentryDParent),
        dentry_name: embedded(name, ground.needed_member(Need::QstrName)),
        dentry_operations: ground.member(b"dentry", b"d_op"),
        name_function: ground.member(b"dentry_operations", b"d_dname"),
        dentry_inode: ground.member(b"dentry", b"d_inode"),
        inode_number: ground.member(b"inode", b"i_ino"),
    }
}

/// The addresses of the functions in a symbol file.
pub(crate) fn functions_of(ground: Ground<'_, '_>) -> Functions
    ensures { AreFunctions ground.entry.table.now result }
{
    Functions {
        socket: ground.symbol_address(b"sockfs_dname"),
        pipe: ground.symbol_address(b"pipefs_dname"),
        anon_inode: ground.symbol_address(b"anon_inodefs_dname"),
    }
}
