//! Faults are compared as what they are, and the table has fifteen kinds.
//!
//! The functions do nothing. Their contracts state this, and so are proved.
ghost use Rattle.std.specs.Prelude.{◌≡◌, ◌↔◌, List, [], ◌∷◌, length, map, codes, IsTrue};
ghost use Rattle.std.specs.declared.alloc.AllocError.{AllocError};
ghost use Rattle.tlsview_run.specs.Kinds.{kinds};
ghost use Rattle.tlsview_run.specs.Endings.{view_fault};
ghost use Rattle.tlsview_run.specs.declared.fault.ViewFault.{ViewFault};
ghost use Rattle.view_input.specs.declared.fault.InputFault.{InputFault};

use crate::fault::ViewFault;
use std::alloc::AllocError;
use view_input::fault::InputFault;

/// Faults are equal if they are the same variant, and a copy of one is that fault. Refused memory is
/// `Memory`, and a fault of the input keeps its name.
pub fn faults_are_compared_by_their_variants()
    ensures equal { (x y : ViewFault) → IsTrue (⟦<ViewFault as PartialEq>⟧.eq x y) ↔ (x ≡ y) }
    ensures copied { (x y : ViewFault) → ⟦<ViewFault as Clone>⟧.is_clone x y → y ≡ x }
    ensures refused { (e : AllocError) (x : ViewFault)
        → ⟦<ViewFault as From<AllocError>>⟧.from_gives e x
        → x ≡ ViewFault.Memory }
    ensures of_input { (e : InputFault) (x : ViewFault)
        → ⟦<ViewFault as From<InputFault>>⟧.from_gives e x
        → x ≡ view_fault e }
{}

/// The names of the table are these fifteen, and no others.
pub fn there_are_fifteen_kinds()
    ensures count { length kinds ≡ 15 }
    ensures named { map (λ kind. kind.name) kinds
        ≡ codes "u16"
        ∷ codes "varint"
        ∷ codes "option-u16"
        ∷ codes "vec-u8"
        ∷ codes "vec-u16"
        ∷ codes "vec-vec-u16"
        ∷ codes "string"
        ∷ codes "mixed"
        ∷ codes "vlbytes"
        ∷ codes "vec-vlbytes"
        ∷ codes "vecu8-u16"
        ∷ codes "bytevecu32"
        ∷ codes "leaf"
        ∷ codes "step"
        ∷ codes "log"
        ∷ [] }
{}
