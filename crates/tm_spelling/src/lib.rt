//! How a run is printed: definitions alone, of each line in bytes and of a whole text as a value.
//!
//! `specs/Lines.antt` spells each line, and `specs/Story.antt` says what a text tells and how it is
//! spelled. The functions here do nothing: their clauses hold the definitions to worked lines.
#![tactic(auto)]

ghost use Rattle.std.specs.Prelude.{◌≡◌, ◌++◌, [], ◌∷◌, codes};
ghost use Rattle.tm_spelling.specs.Lines.{line, marker_text, regs_line, data_line, hex8};
ghost use Rattle.tm_spelling.specs.Story.{start_text, block_text, end_text, changes, nonzero};
ghost use Rattle.tm_spelling.specs.Examples.{
  marker,
  registers,
  booted,
  preempted_block,
  preempted_lines,
  fault_block,
  fault_lines,
  idle_block,
  running_last,
  start_lines,
  end_lines,
};

/// Markers, words and registers are spelled as here.
pub fn spells_values()
    ensures word { hex8 0xdeadbeef ≡ codes "deadbeef" }
    ensures marker { marker_text (marker 1 0 0) ≡ codes "1.0.00000000" }
    ensures count { marker_text (marker 12 1048575 0xc) ≡ codes "12.1048575.0000000c" }
    ensures regs { regs_line (registers 0 0 1) ≡ line (codes "regs x2=10000004 x17=00000001") }
    ensures bare { regs_line [] ≡ line (codes "regs") }
    ensures word_line { data_line (0x10000000, 7) ≡ line (codes "data 10000000 00000007") }
{}

/// The blocks of a text are spelled as here.
pub fn spells_blocks()
    ensures start { start_text 0 255 (booted 0 ∷ []) ≡ start_lines }
    ensures idle { block_text idle_block ≡ line (codes "switch 1 - idle 0") }
    ensures preempted { block_text preempted_block ≡ preempted_lines }
    ensures fault { block_text fault_block ≡ fault_lines }
    ensures end { end_text 0 0 (running_last ∷ []) ≡ end_lines }
{}

/// The words that are printed are those that differ, by address; one that became 0 is printed.
pub fn finds_changes()
    ensures changed { changes (7 ∷ 1 ∷ 2 ∷ []) (0 ∷ 1 ∷ 3 ∷ []) ≡ (0x10000000, 0) ∷ (0x10000008, 3) ∷ [] }
    ensures nonzero { nonzero (0 ∷ 9 ∷ []) ≡ (0x10000004, 9) ∷ [] }
{}
