// A text that is put together in a lent buffer.
ghost use Rattle.std.specs.Prelude.{◌≡◌, ◌≤◌, length};

// A lent buffer and a length, and no String: the library has no heap.
// The first `len` bytes of `out` are the text so far.
#[derive(Drop)]
pub struct Line<'a> {
    pub out: &'a mut [u8],
    pub len: usize,
    ghost within: { len ≤ length out.now },
}

impl<'a> Line<'a> {
    pub fn new(out: &'a mut [u8]) -> Line<'a>
        ensures empty { result.len ≡ 0 }
        ensures same { result.out.now ≡ out.old }
        ensures same_reference { result.out.ghost_name ≡ out.entry.ghost_name }
    {
        Line { out, len: 0 }
    }
}
