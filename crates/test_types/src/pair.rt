//! Pointers that are a pair of any index and any generation.

use arena_ptr::{GenKey, InxKey, Ptr, PtrGen, PtrInx, PtrKey};
use std::fmt;

/// A pointer of an index and a generation of any types.
#[derive(Clone, Copy, PartialEq, Eq, PartialOrd, Ord, Hash)]
pub struct Pair<I, G> {
    inx: I,
    generation: G,
}

impl<I: InxKey, G: GenKey> PtrKey for Pair<I, G> {
    ghost use Rattle.std.proofs.Common.{ap, rules};
    ghost use Rattle.std.specs.Prelude.{◌≡◌, ℕ, ◌&&◌, true};

    type Inx = I;

    type Gen = G;

    ghost key = { λ p. (I.number p.inx, p.generation) };

    ghost same = { λ p q. I.same p.inx q.inx && G.same p.generation q.generation };

    ghost index_within = { λ p. (I.at_least_one p.inx, I.at_most_greatest p.inx) };

    ghost same_key = { λ p q e.
        let inx : p.inx ≡ q.inx = I.same_number p.inx q.inx (ap (λ (k : ℕ × G). k.0) e) in
        let generation : p.generation ≡ q.generation = ap (λ (k : ℕ × G). k.1) e in
        λ i. record { inx = inx i; generation = generation i } };

    ghost same_is_equal = { λ p q. (
      λ t.
          let first : I.same p.inx q.inx ≡ true = Prim.search rules in
          let second : G.same p.generation q.generation ≡ true = Prim.search rules in
          let inx : p.inx ≡ q.inx = (I.same_is_equal p.inx q.inx).0 first in
          let generation : p.generation ≡ q.generation = (G.same_is_equal p.generation
          q.generation).0 second in
          λ i. record { inx = inx i; generation = generation i },
      λ e.
          let first : I.same p.inx q.inx ≡ true = (I.same_is_equal p.inx q.inx).1
          (ap (λ (r : _). r.inx) e) in
          let second : G.same p.generation q.generation ≡ true =
          (G.same_is_equal p.generation q.generation).1 (ap (λ (r : _). r.generation) e) in
          Prim.search rules,
    ) };

    fn invalid() -> Self {
        // The greatest index is at least 1.
        I::greatest();
        Pair {
            inx: I::try_from_usize(1).unwrap(),
            generation: G::two(),
        }
    }

    fn inx(self) -> I {
        self.inx
    }

    fn generation(self) -> G {
        self.generation
    }

    fn is_same(self, other: Self) -> bool {
        self.inx.is_same(other.inx) && self.generation.is_same(other.generation)
    }

    fn _from_raw(inx: I, generation: G) -> Self {
        Pair { inx, generation }
    }
}

impl<I: PtrInx, G: PtrGen> Ptr for Pair<I, G> {
    ghost use Rattle.std.specs.Prelude.{◌≡◌, ◌&&◌, Bool, codes};
    ghost use Rattle.std.proofs.Common.{◌∙◌, ap};

    ghost type_name = { codes "Bare" };

    ghost eq_is_same = { λ p q.
        ap (λ (b : Bool). b && G.eq p.generation q.generation) (I.eq_is_same p.inx q.inx)
        ∙ ap (λ (b : Bool). I.same p.inx q.inx && b)
        (G.eq_is_same p.generation q.generation) };

    fn name() -> &'static str {
        "Bare"
    }
}

impl<I: PtrInx, G: PtrGen> fmt::Debug for Pair<I, G> {
    /// Writes the index, then the generation in parentheses if there is one, as `1(2)`.
    fn fmt<W: fmt::Write>(&self, f: &mut fmt::Formatter<W>) -> fmt::Result {
        self.inx.fmt_hex(f)?;
        self.generation.fmt_gen(f)
    }
}
