//! The script of a made image.
ghost use Rattle.std.specs.Prelude.{◌≡◌, IfOk};
ghost use Rattle.image_maker.specs.Script.{made_script};

// The lines, each with a newline.
#[tactic(auto, unfolding(crate::specs::Script::made_script))]
pub(crate) fn made_script() -> &'static [u8]
    ensures { result.now ≡ made_script }
{
    b"kernel\nbanners\npslist\npstree\nlsmod\ncheck_syscall\nmaps 1\nlsof 1\n\
      type kernel @init_task task_struct.comm\nread task:1 0x400000 16\n\
      scan task:1 0x400000 4096 0100000000000000\ndump task:1 0x400000 4096\nquit\n"
}
