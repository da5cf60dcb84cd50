//! Faults are compared as what they are.
//!
//! The function does nothing. Its contract states this, and so is proved.
ghost use Rattle.std.specs.Prelude.{◌≡◌, ◌↔◌, IsTrue};
ghost use Rattle.std.specs.declared.alloc.AllocError.{AllocError};
ghost use Rattle.view_input.specs.declared.fault.InputFault.{InputFault};

use crate::fault::InputFault;
use std::alloc::AllocError;

/// Faults are equal if they are the same variant, and a copy of one is that fault. Refused memory is
/// `Memory`.
pub fn faults_are_compared_by_their_variants()
    ensures equal { (x y : InputFault)
        → IsTrue (⟦<InputFault as PartialEq>⟧.eq x y) ↔ (x ≡ y) }
    ensures copied { (x y : InputFault) → ⟦<InputFault as Clone>⟧.is_clone x y → y ≡ x }
    ensures refused { (e : AllocError) (x : InputFault)
        → ⟦<InputFault as From<AllocError>>⟧.from_gives e x
        → x ≡ InputFault.Memory }
{}
