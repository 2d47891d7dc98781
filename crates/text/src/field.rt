// Where a field stands, and what reading it returns.
ghost use Rattle.std.specs.Prelude.{◌≡◌, ◌≤◌, length};

// An index of a text, or the text's end.
#[derive(Clone, Copy)]
pub struct At<'a> {
    pub text: &'a [u8],
    pub index: usize,
    ghost in_bounds: { index ≤ length text.now },
}

impl<'a> At<'a> {
    // The front of a text.
    pub fn front(text: &'a [u8]) -> At<'a>
        ensures text { result.text.now ≡ text.now }
        ensures first { result.index ≡ 0 }
    {
        At { text, index: 0 }
    }
}

// What a field is, and where it ends.
#[derive(Clone, Copy)]
pub struct Field<T> {
    pub value: T,
    pub end: usize,
}

// A field that is not in its form stands at this position.
#[derive(Clone, Copy, Debug, PartialEq, Eq)]
pub struct Malformed {
    pub position: usize,
}
