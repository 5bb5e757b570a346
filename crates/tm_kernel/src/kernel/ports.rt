//! The services on ports.

ghost use Rattle.std.specs.Prelude.{◌≡◌};
ghost use Rattle.tm_kernel.specs.Service.{IsAnswer, read_input, write_output};

use super::reply::{entry_of, goes_on, tells};
use super::{Answer, Kernel, Need};
use crate::{E_OK, E_OS_ID};
use tm_marker::{OutputEntry, PORTS, Service};

impl Kernel {
    pub(super) fn read_input(&mut self, port: u32) -> Answer
        ensures { IsAnswer (read_input self.old port) self.new result }
    {
        match self.ports.get(port as usize) {
            Some(word) => tells(Service::ReadInput, *word),
            None => goes_on(Service::ReadInput, E_OS_ID),
        }
    }

    pub(super) fn write_output(&mut self, caller: u8, port: u32, value: u32) -> Answer
        ensures { IsAnswer (write_output self.old caller port value) self.new result }
    {
        if port as usize >= PORTS {
            return goes_on(Service::WriteOutput, E_OS_ID);
        }
        Answer {
            entry: entry_of(Service::WriteOutput.number(), E_OK),
            output: Some(OutputEntry {
                task: caller,
                port: port as u8,
                value,
            }),
            need: Need::Goes,
        }
    }
}
