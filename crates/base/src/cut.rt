// A part of the file with its place: the bytes of a section, and where they start in the file.
ghost use Rattle.std.specs.Prelude.{◌≡◌, ◌+◌, ◌-◌, ◌^◌, ◌<◌, length};

#[derive(Clone, Copy)]
pub struct Cut<'a> {
    pub bytes: &'a [u8],
    pub offset: usize,
    // No place in it overflows.
    ghost in_file: { offset + length bytes.now < 2 ^ 64 },
}

impl<'a> Cut<'a> {
    // Any bytes, by places from their own start.
    pub fn of(bytes: &'a [u8]) -> Cut<'a>
        ensures same { result.bytes.now ≡ bytes.now }
        ensures start { result.offset ≡ 0 }
    {
        Cut { bytes, offset: 0 }
    }

    // How many bytes of it stand from the place `at` on.
    pub fn left(self, at: usize) -> usize
        ensures { result ≡ length self.entry.bytes.now - at }
    {
        self.bytes.len().saturating_sub(at)
    }
}
