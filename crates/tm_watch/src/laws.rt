//! Laws of watches and observers. The function here does nothing: its clauses are the laws.

ghost use Rattle.std.specs.Thread.{IsSend};
ghost use Rattle.tm_watch.specs.contracts.watch.Watch.{the_row as watch_row};
ghost use Rattle.tm_watch.specs.contracts.observer.Observer.{the_row as observer_row};

/// A watch and an observer may go to another thread.
pub fn ends_cross_threads()
    ensures watch { IsSend watch_row }
    ensures observer { IsSend observer_row }
{}
