//! What a fault says of a file, apart from the order in which its lines are read.

ghost use Rattle.std.specs.Prelude.{◌≡◌, ℕ, List};
ghost use Rattle.tm_marker.specs.declared.entries.Slice.{Slice};
ghost use Rattle.tm_lines.specs.declared.fault.Fault.{Fault};
ghost use Rattle.tm_lines.specs.Lines.{lines_on};
ghost use Rattle.tm_image.specs.Plan.{plan_line, plan_of};
ghost use Rattle.tm_image.specs.Draft.{Draft, image_line};
ghost use Rattle.tm_image.specs.Image.{image_of};
ghost use Rattle.tm_lines.specs.Laws.{IsFirstFault, NeverMemory};

/// The fault of a plan's lines is that of the first line that is refused, and conversely.
pub fn plan_faults_are_first()
    ensures told { (number : ℕ) (start : List Slice) (lines : List (List ℕ)) (fault : Fault)
        → lines_on plan_line number start lines ≡ Err fault → IsFirstFault plan_line number start lines fault }
    ensures gives { (number : ℕ) (start : List Slice) (lines : List (List ℕ)) (fault : Fault)
        → IsFirstFault plan_line number start lines fault → lines_on plan_line number start lines ≡ Err fault }
{}

/// The fault of an image's lines is that of the first line that is refused, and conversely.
pub fn image_faults_are_first()
    ensures told { (number : ℕ) (start : Draft) (lines : List (List ℕ)) (fault : Fault)
        → lines_on image_line number start lines ≡ Err fault → IsFirstFault image_line number start lines fault }
    ensures gives { (number : ℕ) (start : Draft) (lines : List (List ℕ)) (fault : Fault)
        → IsFirstFault image_line number start lines fault → lines_on image_line number start lines ≡ Err fault }
{}

/// What the definitions refuse they never refuse for want of memory.
pub fn faults_are_never_memory()
    ensures plan { (bytes : List ℕ) → NeverMemory (plan_of bytes) }
    ensures image { (bytes : List ℕ) → NeverMemory (image_of bytes) }
{}
