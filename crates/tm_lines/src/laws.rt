//! What a fault says of a file, apart from the order in which its lines are read. The function does nothing:
//! its clauses are the laws.

ghost use Rattle.std.specs.Prelude.{◌≡◌, ℕ, List};
ghost use Rattle.tm_lines.specs.declared.fault.Fault.{Fault};
ghost use Rattle.tm_lines.specs.Lines.{lines_on};
ghost use Rattle.tm_lines.specs.Laws.{IsFirstFault};

use crate::Format;

/// The fault of a file's lines is that of the first line that is refused, and conversely.
pub fn faults_are_first<F: Format>(_format: &F)
    ensures told { (number : ℕ) (start : F) (lines : List (List ℕ)) (fault : Fault)
        → lines_on F.next number start lines ≡ Err fault → IsFirstFault F.next number start lines fault }
    ensures gives { (number : ℕ) (start : F) (lines : List (List ℕ)) (fault : Fault)
        → IsFirstFault F.next number start lines fault → lines_on F.next number start lines ≡ Err fault }
{}
