ghost use Rattle.arena_core.specs.PointerKinds.{PointerKind};

use crate::keys::{GenKey, InxKey, PtrKey};

/// The parts of pointers that contracts of any call use.
pub trait AnyPointer: PtrKey {
    ghost pointers: { PointerKind Self Self.Inx Self.Gen Self.Inx.Word };
}

impl<P: PtrKey> AnyPointer for P {
    ghost pointers = { record {
      key = P.key;
      number = P.Inx.number;
      packed = P.Inx.packed_number;
      greatest = P.Inx.greatest;
      first = P.Gen.first;
      following = P.Gen.following;
      wraps = P.Gen.wraps;
    } };
}
