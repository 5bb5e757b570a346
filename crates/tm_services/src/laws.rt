//! The numbers of this crate, as figures. Each function here does nothing: its clauses are the laws.

ghost use Rattle.std.specs.Prelude.{◌≡◌};

use crate::{
    E_OK, E_OS_ACCESS, E_OS_ID, E_OS_LIMIT, E_OS_NOFUNC, E_OS_RESOURCE, E_OS_STATE, E_OS_VALUE,
};

/// What the status codes are.
pub fn statuses_are()
    ensures ok { E_OK ≡ 0 }
    ensures access { E_OS_ACCESS ≡ 1 }
    ensures id { E_OS_ID ≡ 3 }
    ensures limit { E_OS_LIMIT ≡ 4 }
    ensures nofunc { E_OS_NOFUNC ≡ 5 }
    ensures resource { E_OS_RESOURCE ≡ 6 }
    ensures state { E_OS_STATE ≡ 7 }
    ensures value { E_OS_VALUE ≡ 8 }
{}
