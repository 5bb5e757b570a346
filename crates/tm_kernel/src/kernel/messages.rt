//! The services on boxes.

ghost use Rattle.std.specs.Prelude.{◌≡◌, slice_get};
ghost use Rattle.tm_kernel.specs.Service.{IsAnswer, send, receive};

use super::reply::{goes_on, tells_words};
use super::{Answer, Kernel};
use tm_marker::Service;

impl Kernel {
    pub(super) fn send(&mut self, to: u32, message: [u32; 4]) -> Answer
        ensures { IsAnswer (send self.old to message) self.new result }
    {
        let status = self.boxes.send(to, message);
        goes_on(Service::Send, status)
    }

    pub(super) fn receive(&mut self, from: u32) -> Answer
        ensures { IsAnswer (receive self.old from (slice_get self.old.boxes from)) self.new result }
    {
        match self.boxes.receive(from) {
            Ok(message) => tells_words(Service::Receive, message),
            Err(status) => goes_on(Service::Receive, status),
        }
    }
}
