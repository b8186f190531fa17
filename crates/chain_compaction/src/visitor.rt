use arena_ptr::PtrKey;

/// A visitor that sees links in turn.
pub trait Visitor<P: PtrKey>: Drop {
    ghost is_ready: { Self → Type 0 };

    ghost sees: { Self → P → P → Self → Type 0 };

    /// Visits a link, given its old and new pointer.
    fn visit(&mut self, from: P, to: P)
        requires { is_ready self.old }
        ensures view_after { sees self.old from to self.new }
        ensures ready { is_ready self.new };
}
