// A text that is put into a lent buffer, in a file of its own, since the definition of `Adds` speaks of it.
ghost use Rattle.std.specs.Prelude.{◌≤◌, length};

// A lent buffer, and the place after what was put there, which is never past the buffer's end.
#[derive(Drop)]
pub struct Text<'a> {
    pub(crate) out: &'a mut [u8],
    pub(crate) at: usize,
    ghost inside: { at ≤ length out.now },
}
