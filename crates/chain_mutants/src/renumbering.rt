// A forwarding wrapper of a lookup in a renumbering.
ghost use Rattle.std.specs.Prelude.{◌≡◌};
ghost use Rattle.std.specs.Option.{option_map};
ghost use Rattle.chain_renumbering.specs.MoveTables.{new_key_of};

use arena_ptr::{GenKey, PtrKey};
use chain_renumbering::Renumbering;

/// Forwards to `Renumbering::new_pointer`, under its contract.
pub fn new_pointer<P: PtrKey>(renumbering: &Renumbering<P>, p: P) -> Option<P>
    ensures { option_map P.key result ≡ new_key_of P.key P.Gen.same renumbering.now (P.key p) }
{
    renumbering.new_pointer(p)
}
