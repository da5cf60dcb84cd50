//! What is validated is decoded, and what is rejected is not.
//!
//! The functions do nothing. Their contracts state the laws, and so are proved.
ghost use Rattle.std.specs.Prelude.{◌≡◌, ◌-◌, ◌↔◌, ℕ, IsOk, List, Result, Some, length};
ghost use Rattle.std.specs.Borrow.{Bor};
ghost use Rattle.tls_codec_wire.specs.declared.error.Error.{Error};
ghost use Rattle.tls_codec_grammar.specs.Announced.{capped};
ghost use Rattle.tls_codec_grammar.specs.Decoding.{BeginsSome, Reads, ReadsWhole, Splits};
ghost use Rattle.tls_codec_base.specs.PartNames.{IsSpelling};
ghost use Rattle.tls_codec_base.specs.Paths.{FaultOrNoMemory, NoMemory};
ghost use Rattle.tls_codec_validate.specs.declared.rejected.Rejected.{Rejected};
ghost use Rattle.tls_codec_validate.specs.Validated.{RejectsWhole, Validates};

use tls_codec_base::Size;
use tls_codec_wire::Source;

/// Bytes are accepted exactly if they begin with an encoding.
pub fn accepted_exactly_if_an_encoding_begins<T: Size>()
    ensures { (x : List ℕ) (result : Result (Bor (List ℕ)) Rejected)
        → Validates T.format x result
        → IsOk result ↔ BeginsSome T.format.spells x }
{}

/// If bytes are accepted, the slice decoder leaves the same rest, or there was no memory. The value
/// that it returns announces as many bytes as were taken. If they are rejected, it rejects them
/// too.
pub fn what_is_validated_is_split<T: Size>()
    ensures rest { (x : List ℕ) (rest : Bor (List ℕ)) (found : T × Bor (List ℕ))
        → Validates T.format x (Ok rest)
        → Splits T.format T.plain x (Ok found)
        → found.1.now ≡ rest.now }
    ensures length { (x : List ℕ) (rest : Bor (List ℕ)) (found : T × Bor (List ℕ))
        → Validates T.format x (Ok rest)
        → Splits T.format T.plain x (Ok found)
        → T.format.announced (T.plain found.0) ≡ capped (length x - length rest.now) }
    ensures accepted { (x : List ℕ) (rest : Bor (List ℕ)) (e : Error)
        → Validates T.format x (Ok rest)
        → Splits T.format T.plain x (Err e)
        → NoMemory T.format.lean e }
    ensures rejected { (x : List ℕ) (r : Rejected) (found : T × Bor (List ℕ))
        → Validates T.format x (Err r)
        → Splits T.format T.plain x (Ok found)
        → ⊥ }
{}

/// The same of both exact forms, of all of the bytes.
pub fn what_is_validated_whole_is_decoded<T: Size>()
    ensures accepted { (x : List ℕ) (e : Error)
        → IsSpelling T.format.spells x
        → ReadsWhole T.format T.plain x (Err e)
        → NoMemory T.format.lean e }
    ensures rejected { (x : List ℕ) (e : Error) (v : T)
        → RejectsWhole T.format.spells x e
        → ReadsWhole T.format T.plain x (Ok v)
        → ⊥ }
{}

/// The same for the decoder from a source that reports these bytes, except for faults of the
/// source.
pub fn what_is_validated_is_read<T: Size, R: Source>()
    ensures rest { (x : List ℕ) (rest : Bor (List ℕ)) (old new : R) (v : T)
        → R.coming old ≡ Some x
        → Validates T.format x (Ok rest)
        → Reads T.format T.plain R.Source old new (Ok v)
        → R.coming new ≡ Some rest.now }
    ensures accepted { (x : List ℕ) (rest : Bor (List ℕ)) (old new : R) (e : Error)
        → R.coming old ≡ Some x
        → Validates T.format x (Ok rest)
        → Reads T.format T.plain R.Source old new (Err e)
        → FaultOrNoMemory T.format.lean (R.counts old) (R.counts new) e }
    ensures rejected { (x : List ℕ) (r : Rejected) (old new : R) (v : T)
        → R.coming old ≡ Some x
        → Validates T.format x (Err r)
        → Reads T.format T.plain R.Source old new (Ok v)
        → ⊥ }
{}
