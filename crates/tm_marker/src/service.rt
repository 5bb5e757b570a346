//! The services that a task can call, and their numbers.

ghost use Rattle.std.specs.Prelude.{◌≡◌, IfSome};
ghost use Rattle.tm_marker.specs.Service.{service_number, service_of};

/// The services (after OSEK/VDX Operating System 2.2.3, 13; boxes and ports are this project's).
#[derive(Clone, Copy, Debug, PartialEq, Eq)]
pub enum Service {
    ActivateTask,
    TerminateTask,
    ChainTask,
    GetTaskId,
    GetTaskState,
    GetResource,
    ReleaseResource,
    SetEvent,
    ClearEvent,
    GetEvent,
    WaitEvent,
    GetAlarm,
    SetRelAlarm,
    SetAbsAlarm,
    CancelAlarm,
    Send,
    Receive,
    ReadInput,
    WriteOutput,
    ShutdownOs,
}

impl Service {
    /// The number by which a task calls the service: 1 to 20.
    pub fn number(self) -> u8
        ensures { result ≡ service_number self }
    {
        match self {
            Service::ActivateTask => 1,
            Service::TerminateTask => 2,
            Service::ChainTask => 3,
            Service::GetTaskId => 4,
            Service::GetTaskState => 5,
            Service::GetResource => 6,
            Service::ReleaseResource => 7,
            Service::SetEvent => 8,
            Service::ClearEvent => 9,
            Service::GetEvent => 10,
            Service::WaitEvent => 11,
            Service::GetAlarm => 12,
            Service::SetRelAlarm => 13,
            Service::SetAbsAlarm => 14,
            Service::CancelAlarm => 15,
            Service::Send => 16,
            Service::Receive => 17,
            Service::ReadInput => 18,
            Service::WriteOutput => 19,
            Service::ShutdownOs => 20,
        }
    }

    /// The service of a number, where there is one.
    #[tactic(auto, unfolding(crate::specs::Service::service_of))]
    pub fn with_number(number: u8) -> Option<Service>
        ensures service { result ≡ service_of number }
        ensures number { IfSome result (λ service. service_number service ≡ number) }
    {
        match number {
            1 => Some(Service::ActivateTask),
            2 => Some(Service::TerminateTask),
            3 => Some(Service::ChainTask),
            4 => Some(Service::GetTaskId),
            5 => Some(Service::GetTaskState),
            6 => Some(Service::GetResource),
            7 => Some(Service::ReleaseResource),
            8 => Some(Service::SetEvent),
            9 => Some(Service::ClearEvent),
            10 => Some(Service::GetEvent),
            11 => Some(Service::WaitEvent),
            12 => Some(Service::GetAlarm),
            13 => Some(Service::SetRelAlarm),
            14 => Some(Service::SetAbsAlarm),
            15 => Some(Service::CancelAlarm),
            16 => Some(Service::Send),
            17 => Some(Service::Receive),
            18 => Some(Service::ReadInput),
            19 => Some(Service::WriteOutput),
            20 => Some(Service::ShutdownOs),
            _ => None,
        }
    }
}
