//! The forms of a call, by the texts that it gives.

ghost use Rattle.std.specs.Prelude.{◌≡◌, [], ◌∷◌, Some, IfSome, IsSome, option_and_then};
ghost use Rattle.tm_words.specs.declared.kind.Kind.TheVariants as kind;
ghost use Rattle.tm_words.specs.Command.{asked, form_of, is_named, options_of};
ghost use Rattle.tm_words.specs.Forms.{asked_by};

use crate::kind::Kind;
use crate::numbers::{count_in, point_in, seed_in, task_in, workers_in};
use crate::parts::Parts;
use crate::text::Text;

/// The texts of a call that is of a form.
#[derive(Drop)]
pub(crate) enum Form<'a> {
    Trace {
        image: &'a str,
        plan: &'a str,
    },
    Record {
        image: &'a str,
        plan: &'a str,
        dump: &'a str,
    },
    Live {
        image: &'a str,
        plant: &'a str,
        dump: &'a str,
        slices: &'a str,
        len: &'a str,
        tape: Option<Text<'a>>,
    },
    Points {
        image: &'a str,
        dump: &'a str,
    },
    Replay {
        image: &'a str,
        dump: &'a str,
        from: &'a str,
        workers: &'a str,
    },
    Make {
        number: &'a str,
    },
    Load {
        image: &'a str,
        task: &'a str,
        executable: &'a str,
        new: &'a str,
    },
}

/// The form that the parts of the words behind the first have.
pub(crate) fn form_of(kind: Kind, parts: Parts<'_>) -> Option<Form<'_>>
    ensures same { option_and_then asked_by result ≡ form_of kind parts.entry }
    ensures sure { IfSome result (λ form. IsSome (asked_by form)) }
{
    match kind {
        Kind::Live => live_form(parts),
        Kind::Replay => replay_form(parts),
        _ => plain_form(kind, &parts),
    }
}

/// A form without options.
fn plain_form<'a>(kind: Kind, parts: &Parts<'a>) -> Option<Form<'a>>
    requires { options_of kind ≡ [] }
    ensures same { option_and_then asked_by result ≡ form_of kind parts.now }
    ensures sure { IfSome result (λ form. IsSome (asked_by form)) }
{
    if !parts.has_no_options() {
        return None;
    }
    match (kind, parts.names()) {
        (Kind::Trace, [image, plan]) => Some(Form::Trace {
            image: image.get(),
            plan: plan.get(),
        }),
        (Kind::Record, [image, plan, dump]) => Some(Form::Record {
            image: image.get(),
            plan: plan.get(),
            dump: dump.get(),
        }),
        (Kind::Points, [image, dump]) => Some(Form::Points {
            image: image.get(),
            dump: dump.get(),
        }),
        (Kind::Make, [number]) if seed_in(number.get()).is_some() => Some(Form::Make {
            number: number.get(),
        }),
        (Kind::Load, [image, task, executable, new]) if task_in(task.get()).is_some() => {
            Some(Form::Load {
                image: image.get(),
                task: task.get(),
                executable: executable.get(),
                new: new.get(),
            })
        }
        _ => None,
    }
}

/// `live IMAGE PLANT DUMP --slices N --len L [--tape NAME]`
fn live_form(mut parts: Parts<'_>) -> Option<Form<'_>>
    ensures same { option_and_then asked_by result ≡ form_of kind.Live parts.entry }
    ensures sure { IfSome result (λ form. IsSome (asked_by form)) }
{
    let slices = parts.take("--slices")?;
    let len = parts.take("--len")?;
    let tape = parts.take("--tape");
    if !parts.has_no_options() {
        return None;
    }
    named_live_form(parts.names(), slices.get(), len.get(), tape)
}

/// The same, by its names and the values of its options.
fn named_live_form<'a>(
    names: &[Text<'a>],
    slices: &'a str,
    len: &'a str,
    tape: Option<Text<'a>>,
) -> Option<Form<'a>>
    ensures same { option_and_then asked_by result ≡ asked kind.Live names.now (Some slices.now ∷ Some len.now ∷ tape.entry ∷ []) }
    ensures sure { IfSome result (λ form. IsSome (asked_by form)) }
{
    match names {
        [image, plant, dump]
            if count_in(slices).is_some() && count_in(len).is_some() && !is_named(dump, &tape) => {
            Some(Form::Live {
                image: image.get(),
                plant: plant.get(),
                dump: dump.get(),
                slices,
                len,
                tape,
            })
        }
        _ => None,
    }
}

/// Whether a tape would be put under the name of the dump.
fn is_named(dump: &Text<'_>, tape: &Option<Text<'_>>) -> bool
    ensures { result ≡ is_named dump.now tape.now }
{
    match tape {
        Some(tape) => tape.get() == dump.get(),
        None => false,
    }
}

/// `replay IMAGE DUMP --from P [--workers W]`
fn replay_form(mut parts: Parts<'_>) -> Option<Form<'_>>
    ensures same { option_and_then asked_by result ≡ form_of kind.Replay parts.entry }
    ensures sure { IfSome result (λ form. IsSome (asked_by form)) }
{
    let from = parts.take("--from");
    let workers = match parts.take("--workers") {
        Some(workers) => workers.get(),
        None => "1",
    };
    if !parts.has_no_options() {
        return None;
    }
    match (parts.names(), from) {
        ([image, dump], Some(from))
            if point_in(from.get()).is_some() && workers_in(workers).is_some() => {
            Some(Form::Replay {
                image: image.get(),
                dump: dump.get(),
                from: from.get(),
                workers,
            })
        }
        _ => None,
    }
}
