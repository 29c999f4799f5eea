// What is measured.
ghost use Rattle.std.specs.Prelude.{◌≡◌, ◌*◌, length};
ghost use Rattle.judge.specs.Asked.{Tiled};

// A picture that can be measured: its levels, row by row, and what they were filtered to.
#[derive(Clone, Copy)]
pub(crate) struct FilteredPicture<'a> {
    pub(crate) levels: &'a [u8],
    pub(crate) filtered: &'a [u16],
    pub(crate) width: usize,
    pub(crate) height: usize,
    ghost tiled: { Tiled width height filtered.now },
    ghost whole: { length levels.now ≡ width * height },
}
