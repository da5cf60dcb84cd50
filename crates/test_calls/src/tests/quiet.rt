//! A source that doesn't report which bytes are to come is rejected as a slice of the bytes that it
//! gave is: no prefix of them is an encoding.
ghost use Rattle.std.specs.Prelude.{◌≡◌, ◌++◌, ℕ, List, None, false, true, IfErr, refl};
ghost use Rattle.std.proofs.Common.{rules};
ghost use Rattle.std.proofs.lemmas.Grind.{common_steps};
ghost use Rattle.tls_codec.specs.Devices.{no_counts, none_fell_refl};
ghost use Rattle.tls_codec.specs.Spellings.{Refuses, bytes, list, number, pair};

use crate::tests::{holds, same};
use std::alloc::Global;
use tls_codec::{Deserialize, Error, Fault, Source, VLBytes};

// Gives its bytes, doesn't report which are to come, and never fails.
#[derive(Drop)]
struct Quiet<'a> {
    left: &'a [u8],
}

impl Source for Quiet<'_> {
    ghost coming = { λ _. None };

    ghost counts = { λ _. no_counts };

    ghost given = { λ a g b. a.left.now ≡ g ++ b.left.now };

    fn pull(&mut self, into: &mut [u8]) -> Result<usize, Fault> {
        self.left.pull(into)
    }

    ghost gives_nothing = { λ s. refl };

    ghost gives_in_order = { λ a xs b ys c p q. Prim.search (rules, common_steps) };

    ghost gives_from_front = { λ a xs b p. tt };

    ghost no_count_falls = { λ a xs b p. none_fell_refl no_counts };
}

// If the decoder fails, no prefix of what the source gave is an encoding, or memory ran out. A lean
// type never requests memory.
fn value<T: Deserialize>(alloc: Global, src: &mut Quiet<'_>) -> Result<T, Error>
    ensures { IfErr result
        (λ e. (x : List ℕ)
        × (src.old.left.now ≡ x ++ src.new.left.now)
        × Refuses T.format.spells T.format.lean x e) }
{
    T::tls_deserialize(alloc, src)
}

fn short(alloc: Global, src: &mut Quiet<'_>) -> Result<u16, Error>
    ensures { IfErr result
        (λ e. (x : List ℕ)
        × (src.old.left.now ≡ x ++ src.new.left.now)
        × Refuses (number 2) true x e) }
{
    value(alloc, src)
}

fn two(alloc: Global, src: &mut Quiet<'_>) -> Result<(u8, u16), Error>
    ensures { IfErr result
        (λ e. (x : List ℕ)
        × (src.old.left.now ≡ x ++ src.new.left.now)
        × Refuses (pair (number 1) (number 2)) true x e) }
{
    value(alloc, src)
}

fn shorts(alloc: Global, src: &mut Quiet<'_>) -> Result<Vec<u16>, Error>
    ensures { IfErr result
        (λ e. (x : List ℕ)
        × (src.old.left.now ≡ x ++ src.new.left.now)
        × Refuses (list (number 2)) false x e) }
{
    value(alloc, src)
}

fn content(alloc: Global, src: &mut Quiet<'_>) -> Result<VLBytes, Error>
    ensures { IfErr result
        (λ e. (x : List ℕ) × (src.old.left.now ≡ x ++ src.new.left.now) × Refuses bytes false x e) }
{
    value(alloc, src)
}

// Only the bytes that were asked for are taken.
#[test]
fn quiet_sources_are_rejected(rt: HostRuntime) {
    let alloc = rt.alloc();
    let ends = Some(Error::EndOfStream);
    let mut source = Quiet { left: &[1] };
    same(&rt, short(alloc, &mut source).err(), ends);
    holds(&rt, source.left.is_empty());
    let mut source = Quiet { left: &[1, 2] };
    same(&rt, two(alloc, &mut source).err(), ends);
    holds(&rt, source.left.is_empty());
    let mut source = Quiet {
        left: &[3, 0, 1, 0, 2],
    };
    same(&rt, shorts(alloc, &mut source).err(), ends);
    same(&rt, source.left, [0, 2].as_slice());
    let mut source = Quiet { left: &[2, 1] };
    same(&rt, content(alloc, &mut source).err(), ends);
    holds(&rt, source.left.is_empty());
    let mut source = Quiet { left: &[0, 7, 8] };
    same(&rt, short(alloc, &mut source), Ok(7));
    same(&rt, source.left, [8].as_slice());
}
