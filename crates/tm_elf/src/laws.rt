//! Laws of every executable that is read. The function here does nothing: its clause is the law.

ghost use Rattle.tm_elf.specs.Laws.{LoadsAreApart};

/// No byte of a task's memory is one of two loads of an executable that is read.
pub fn loads_are_apart()
    ensures { LoadsAreApart }
{}
