//! The whole run of a plan on an image, as text.

ghost use Rattle.std.specs.Prelude.{◌≡◌, ◌^◌, ◌<◌, length, IfOk};
ghost use Rattle.tm_system.specs.Telling.{text_of_run};

use crate::teller::Teller;
use std::alloc::{AllocError, Global};
use tm_image::{Image, Plan};
use tm_system::Machine;

/// The text of the whole run, from boot.
pub(crate) fn trace(alloc: Global, image: &Image, plan: &Plan) -> Result<Vec<u8>, AllocError>
    requires { length plan.now < 2 ^ 32 }
    ensures { IfOk result (λ text. text.items ≡ text_of_run image.now plan.now 0) }
{
    // An image keeps what its type says.
    let _tasks = image.tasks();
    let slices = plan.slices();
    let mut machine = Machine::boot(alloc, image)?;
    let mut teller = Teller::start(alloc, &machine)?;
    for index in 0..slices.len() {
        machine.slice(image, &slices[index], &mut teller)?;
    }
    teller.end(&machine)
}
