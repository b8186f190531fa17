//! Laws of moves after another link.

ghost use Rattle.chain_laws.specs.MoveAfter.{MoveAgrees, MoveMoves, MoveBackRestores};

/// Moves keep links well linked.
pub fn move_agrees()
    ensures { MoveAgrees }
{}

/// A link leaves its chain and comes after another.
pub fn move_moves()
    ensures { MoveMoves }
{}

/// A move there and back changes nothing.
pub fn move_back_restores()
    ensures { MoveBackRestores }
{}
