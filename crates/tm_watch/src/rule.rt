//! The rule of the versions that a watch shows to its observers.
//!
//! The writer and each reader has a view, which contracts alone see: nothing, or the version before any slice, from
//! which all versions that are shown come.
use crate::version::{Operation, Version};
use atomic_table::{Join, Split};
use crossbeam_utils::rule::{Outcome, Protocol};
use left_right::reader::{Reader, Reading};
use left_right::writer::Writer;

/// Each version's run is of its list, and who knows an origin knows that of the versions.
pub(crate) struct Ruled;

impl Protocol<Version, Option<Version>> for Ruled {
    ghost use Rattle.std.specs.Prelude.{None};
    ghost use Rattle.tm_watch.specs.Rule.{Keeps};

    ghost holds = { λ version views. Keeps version views };

    ghost first = { None };
}

/// A reader sees a version.
pub(crate) struct See;

impl Outcome<Version, Option<Version>> for See {
    ghost use Rattle.tm_watch.specs.Rule.{Sees};

    ghost then = { λ before old new after. Sees before old new after };
}

/// The writer shows a version.
pub(crate) struct Show;

impl Outcome<Version, Option<Version>> for Show {
    ghost use Rattle.tm_watch.specs.Rule.{Shows};

    ghost then = { Shows };
}

/// The writer tells a reader what it knows.
pub(crate) struct Tell;

impl Split<Option<Version>> for Tell {
    ghost left = { λ known. known };

    ghost right = { λ known. known };
}

impl Join<Option<Version>> for Tell {
    ghost use Rattle.std.specs.Prelude.{None};

    ghost both = { λ known told. told };

    ghost spent = { None };
}

pub(crate) type VersionWriter = Writer<Version, Operation, Option<Version>, Ruled>;

pub(crate) type VersionReader = Reader<Version, Option<Version>, Ruled>;

pub(crate) type VersionReading = Reading<Version, Option<Version>, Ruled>;
