//! Both decoders of a type accept the same inputs, and agree on them.
ghost use Rattle.std.specs.Prelude.{◌≡◌, ℕ, List};
ghost use Rattle.std.specs.Borrow.{Bor};
ghost use Rattle.tls_codec_wire.specs.declared.error.Error.{Error};
ghost use Rattle.tls_codec_grammar.specs.Decoding.{ReadsWhole};
ghost use Rattle.tls_codec_base.specs.Paths.{BothRead, FaultOrNoMemory, NoMemory};

use crate::traits::Size;
use tls_codec_wire::Source;

/// If a source reports the bytes of a slice, both decoders return one value and leave the same
/// rest, or both reject them. This leaves out faults of the source and running out of memory. Both
/// exact forms agree in the same way.
pub fn both_paths_agree<T: Size, R: Source>()
    ensures agree { (x : List ℕ) (old new : R) (found : T × Bor (List ℕ)) (v : T)
        → BothRead T.format T.plain R.Source x old new (Ok found) (Ok v)
        → (T.plain found.0 ≡ T.plain v) × (R.coming new ≡ Some found.1.now) }
    ensures slice_alone { (x : List ℕ) (old new : R) (found : T × Bor (List ℕ)) (e : Error)
        → BothRead T.format T.plain R.Source x old new (Ok found) (Err e)
        → FaultOrNoMemory T.format.lean (R.counts old) (R.counts new) e }
    ensures source_alone { (x : List ℕ) (old new : R) (e : Error) (v : T)
        → BothRead T.format T.plain R.Source x old new (Err e) (Ok v)
        → NoMemory T.format.lean e }
    ensures exact { (x : List ℕ) (v w : T) → ReadsWhole T.format T.plain x (Ok v)
        → ReadsWhole T.format T.plain x (Ok w) → T.plain v ≡ T.plain w }
    ensures exact_alone { (x : List ℕ) (v : T) (e : Error) → ReadsWhole T.format T.plain x (Ok v)
        → ReadsWhole T.format T.plain x (Err e) → NoMemory T.format.lean e }
{}
