//! Laws of canonical compressions.
ghost use Rattle.chain_traits.specs.CompressionLaws.{SecondCompressionMovesNothing};

use arena_ptr::PtrKey;

/// A second `compress_canonical` moves and changes no link.
pub fn second_compression_moves_nothing<P: PtrKey, T: Drop>()
    ensures { SecondCompressionMovesNothing P.Gen T }
{}
