//! Lists that contracts alone see: the logs of books without words. They have no bytes.

ghost use Rattle.std.specs.Prelude.{◌≡◌, []};

use logbook::{Opening, Rule, Seen, Start};

/// The rule of a book without words, whose log is any list. A longer list is the log of a new book.
pub(crate) struct Untold;

impl<E> Rule<E, u64> for Untold {
    ghost use Rattle.std.specs.Prelude.{[]};
    ghost use base.Fml.{ftrue};

    ghost holds = { λ cells list. Unit {0} };

    ghost first = { [] };

    ghost hinted = { λ number list. Unit {0} };

    ghost shows = { λ list. [] };

    ghost keeps = { λ names list. ftrue };

    ghost moves = { λ ask before after answer. Unit {0} };
}

impl<E> Opening<(), E> for Untold {
    ghost use Rattle.std.specs.Prelude.{[]};

    ghost log = { λ count about. [] };
}

/// A list that contracts alone see.
pub(crate) type List<E> = Seen<E, u64, Untold>;

/// The empty list.
pub(crate) fn nothing<E>() -> List<E>
    ensures { result.log ≡ [] }
{
    List::<E>::open_row::<(), Untold>(&(), Start::alone(), 0).0
}
