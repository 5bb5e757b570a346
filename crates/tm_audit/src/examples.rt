//! A small audit and its text: a theorem that guards the definitions.

ghost use Rattle.std.specs.Prelude.{◌≡◌, codes};
ghost use Rattle.tm_audit.specs.Text.{audit_text};
ghost use Rattle.tm_audit.specs.Examples.{quiet, two_lines};

use crate::AUDIT_ROOM;

/// The room of a text, as a figure.
pub fn room_is()
    ensures { AUDIT_ROOM ≡ 2048 }
{}

/// Audits are spelled as here.
pub fn audit_examples()
    ensures quiet { audit_text 2 quiet ≡ codes "slices 2\n" }
    ensures two { audit_text 10 two_lines ≡ codes "slices 10\nline 0 raised 1 joined 0 taken 0 pending 1\nline 15 raised 12 joined 2 taken 10 pending 0\n" }
{}
