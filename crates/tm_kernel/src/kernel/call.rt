//! One service call: the table of services.

ghost use Rattle.std.specs.Prelude.{◌≡◌, ◌≢◌, length};
ghost use Rattle.tm_kernel.specs.State.{IsKernel, IsRunning};
ghost use Rattle.tm_kernel.specs.Service.{answer, served, IsAnswer};
ghost use Rattle.tm_kernel.specs.Nesting.{IsNested, IsSettled, RefusedUserHolds};

use super::reply::unserved;
use super::{Answer, Kernel};
use crate::E_OK;
use tm_marker::Service;

impl Kernel {
    /// Performs one service call of the running task. A refused call changes nothing.
    pub fn call(&mut self, task: u8, service: u8, args: [u32; 6]) -> Answer
        requires { IsRunning self.old task }
        ensures kernel { self.new ≡ (answer self.old task service args).kernel }
        ensures entry { result.entry ≡ (answer self.old task service args).entry }
        ensures output { result.output ≡ (answer self.old task service args).output }
        ensures need { result.need ≡ (answer self.old task service args).need }
        ensures refused { result.entry.status ≢ E_OK → self.new ≡ self.old }
        ensures users { IsNested self.old → IsSettled self.old → RefusedUserHolds self.old task service args result.entry.status }
        ensures sound { IsKernel self.new }
    {
        prove!(task == self.running);
        self.answer(task, service, args)
    }

    fn answer(&mut self, caller: u8, number: u8, args: [u32; 6]) -> Answer
        requires { IsRunning self.old caller }
        ensures { IsAnswer (answer self.old caller number args) self.new result }
    {
        match Service::with_number(number) {
            Some(service) => self.serve(caller, service, args),
            None => unserved(number),
        }
    }

    fn serve(&mut self, caller: u8, service: Service, args: [u32; 6]) -> Answer
        requires { IsRunning self.old caller }
        ensures { IsAnswer (served self.old caller args service) self.new result }
    {
        let [first, second, third, fourth, fifth, _] = args;
        match service {
            Service::ActivateTask => self.activate_task(first),
            Service::TerminateTask => self.terminate_task(caller),
            Service::ChainTask => self.chain_task(caller, first),
            Service::GetTaskId => self.get_task_id(caller),
            Service::GetTaskState => self.get_task_state(first),
            Service::GetResource => self.get_resource(caller, first),
            Service::ReleaseResource => self.release_resource(caller, first),
            Service::SetEvent => self.set_event(first, second),
            Service::ClearEvent => self.clear_event(caller, first),
            Service::GetEvent => self.get_event(first),
            Service::WaitEvent => self.wait_event(caller, first),
            Service::GetAlarm => self.get_alarm(first),
            Service::SetRelAlarm => self.set_rel_alarm(first, second, third),
            Service::SetAbsAlarm => self.set_abs_alarm(first, second, third),
            Service::CancelAlarm => self.cancel_alarm(first),
            Service::Send => self.send(first, [second, third, fourth, fifth]),
            Service::Receive => self.receive(first),
            Service::ReadInput => self.read_input(first),
            Service::WriteOutput => self.write_output(caller, first, second),
            Service::ShutdownOs => self.shutdown_os(caller),
        }
    }
}
