ghost use Rattle.std.specs.Prelude.{◌≡◌, ◌+◌, ◌<◌, ◌^◌};
ghost use Rattle.arena_traits.specs.Advancers.{cursor_past};

/// The position of an advancer: going up or down from an index, or at the end.
#[derive(Clone, Copy, Debug, PartialEq, Eq)]
pub enum Cursor {
    Up(usize),
    Down(usize),
    Nowhere,
}

impl Cursor {
    /// Returns the cursor past an index.
    pub fn after(self, index: usize) -> Cursor
        requires { index + 1 < 2 ^ 64 }
        ensures { result ≡ cursor_past self index }
    {
        match self {
            Cursor::Up(_) => Cursor::Up(index + 1),
            Cursor::Down(_) => Cursor::Down(index.saturating_sub(1)),
            Cursor::Nowhere => Cursor::Nowhere,
        }
    }
}
