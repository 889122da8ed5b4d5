//! What a slot's connection owes.

ghost use Rattle.std.specs.Prelude.{◌≡◌};
ghost use Rattle.csp_ports.specs.Tasks.{task_by};

use csp_rdp::Job;

/// A task of a slot's connection.
#[derive(Clone, Copy)]
pub enum Task {
    /// The application is to be told that the connection is not open any more.
    Tell,
    /// A packet is to be delivered to the application.
    Deliver,
    /// A packet is to be made and sent.
    Make(Job),
}

/// The first task of a slot, by whether a Down note is owed and what the machine owes: a reset and the
/// opening packet come before the note, all others after it.
pub fn task_by(is_down: bool, job: Option<Job>) -> Option<Task>
    ensures { result ≡ task_by is_down job }
{
    match job {
        Some(Job::Rst) => Some(Task::Make(Job::Rst)),
        Some(Job::Syn) => Some(Task::Make(Job::Syn)),
        _ if is_down => Some(Task::Tell),
        Some(Job::Deliver) => Some(Task::Deliver),
        Some(Job::Eak) => Some(Task::Make(Job::Eak)),
        Some(Job::Data) => Some(Task::Make(Job::Data)),
        Some(Job::Ack) => Some(Task::Make(Job::Ack)),
        None => None,
    }
}
