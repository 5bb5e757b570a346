//! Laws of the rule. The function here does nothing: its clauses are the laws, of every state of the
//! table between any two steps of any threads.
ghost use Rattle.tm_irq.specs.Laws.{LinesBalance, OneIsFresh, HomeIsAll};

/// Each line balances, no two fresh raises of a line have one number, and where every device is home
/// the kernel's seat knows all that was done.
pub fn lines_balance()
    ensures balance { LinesBalance }
    ensures one { OneIsFresh }
    ensures home { HomeIsAll }
{}
