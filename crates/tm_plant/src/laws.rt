//! What the definitions say of plants and tapes. The functions do nothing: their clauses are the laws.

ghost use Rattle.std.specs.Prelude.{◌≡◌, ℕ, List, All};
ghost use Rattle.tm_marker.specs.declared.entries.Slice.{Slice};
ghost use Rattle.tm_lines.specs.declared.fault.Fault.{Fault};
ghost use Rattle.tm_lines.specs.Lines.{lines_on};
ghost use Rattle.tm_lines.specs.Laws.{IsFirstFault, NeverMemory};
ghost use Rattle.tm_image.specs.Plan.{plan_of};
ghost use Rattle.tm_plant.specs.declared.plant.Act.{Act};
ghost use Rattle.tm_plant.specs.Plant.{plant_line, plant_of};
ghost use Rattle.tm_plant.specs.Tape.{IsTaped, tape_text};

/// The fault of a plant's lines is that of the first line that is refused, and conversely.
pub fn plant_faults_are_first()
    ensures told { (number : ℕ) (start : List (List Act)) (lines : List (List ℕ)) (fault : Fault)
        → lines_on plant_line number start lines ≡ Err fault → IsFirstFault plant_line number start lines fault }
    ensures gives { (number : ℕ) (start : List (List Act)) (lines : List (List ℕ)) (fault : Fault)
        → IsFirstFault plant_line number start lines fault → lines_on plant_line number start lines ≡ Err fault }
{}

/// What the definition of a plant refuses it never refuses for want of memory.
pub fn plants_are_never_memory()
    ensures { (bytes : List ℕ) → NeverMemory (plant_of bytes) }
{}

/// The text of a tape is read as the plan of the same slices.
pub fn tapes_are_read()
    ensures { (slices : List Slice) → All IsTaped slices → plan_of (tape_text slices) ≡ Ok slices }
{}
