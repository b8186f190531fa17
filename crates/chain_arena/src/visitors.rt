use arena_ptr::PtrKey;
use chain_compaction::visitor::Visitor;
use std::alloc::Allocator;

/// A visitor that reports each link to a closure.
#[derive(Drop)]
pub struct MapVisitor<F> {
    pub map: F,
}

impl<P: PtrKey, F: FnMut(P, P) + Drop> Visitor<P> for MapVisitor<F> {
    ghost use Rattle.std.specs.Fn.{Called};

    ghost is_ready = { λ v. F.IsAlwaysCallable v.map };

    ghost sees = { λ v p q w. Called F.FnMut v.map (p, (q, tt)) tt w.map };

    fn visit(&mut self, from: P, to: P) {
        (self.map)(from, to)
    }
}

#[derive(Drop)]
pub(crate) struct MoveLister<P, A: Allocator> {
    pub(crate) moves: Vec<(P, P), A>,
}

impl<P: PtrKey, A: Allocator> Visitor<P> for MoveLister<P, A> {
    ghost use Rattle.std.specs.Prelude.{⊤};
    ghost use Rattle.chain_compaction.specs.Layouts.{IsPairListed};

    ghost is_ready = { λ v. ⊤ };

    ghost sees = { λ v p q w. IsPairListed v.moves p q w.moves };

    fn visit(&mut self, from: P, to: P) {
        // The capacity suffices.
        let _ = self.moves.push((from, to));
    }
}
