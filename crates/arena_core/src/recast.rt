ghost use Rattle.std.specs.Prelude.{Result};

/// A map from items to new values.
///
/// Port of `Recaster`.
pub trait Recaster {
    type Item;

    ghost recasts: { Self → Self.Item → Self.Item → Result Unit Self.Item → Type 0 };

    /// Replaces `item`.
    ///
    /// # Errors
    ///
    /// - An item without a new value.
    fn recast_item(&self, item: &mut Self::Item) -> Result<(), Self::Item>
        ensures { recasts self.now item.old item.new result };
}

/// A value that holds items, such as pointers.
///
/// Port of `Recast`.
pub trait Recast<I> {
    ghost recast_by: { (I → I → Result Unit I → Type 0) → Self → Self → Result Unit I → Type 0 };

    /// Replaces each item.
    ///
    /// # Errors
    ///
    /// - The recaster's error.
    fn recast<R: Recaster<Item = I>>(&mut self, recaster: &R) -> Result<(), I>
        ensures { recast_by (R.recasts recaster.now) self.old self.new result };
}
