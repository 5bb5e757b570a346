//! The services on resources.

ghost use Rattle.std.specs.Prelude.{◌≡◌};
ghost use Rattle.tm_services.specs.Ceilings.{holds};
ghost use Rattle.tm_kernel.specs.State.{IsRunning};
ghost use Rattle.tm_kernel.specs.Service.{IsAnswer, get_resource, release_resource};

use super::reply::goes_on;
use super::{Answer, Kernel};
use tm_marker::Service;

impl Kernel {
    pub(super) fn get_resource(&mut self, caller: u8, resource: u32) -> Answer
        requires { IsRunning self.old caller }
        ensures { IsAnswer (get_resource self.old caller resource) self.new result }
    {
        let status = self.ceilings.get(caller, resource);
        goes_on(Service::GetResource, status)
    }

    pub(super) fn release_resource(&mut self, caller: u8, resource: u32) -> Answer
        requires { IsRunning self.old caller }
        ensures { IsAnswer (release_resource self.old caller resource) self.new result }
    {
        let status = self.ceilings.release(caller, resource);
        goes_on(Service::ReleaseResource, status)
    }

    /// Whether the running task holds a resource.
    pub(super) fn holds(&self, caller: u8) -> bool
        requires { IsRunning self.now caller }
        ensures { result ≡ holds self.now.ceilings caller }
    {
        self.ceilings.holds(caller)
    }
}
