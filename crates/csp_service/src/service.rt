//! The services, by their ports.

ghost use Rattle.std.specs.Prelude.{◌≡◌};
ghost use Rattle.csp_service.specs.Services.{service_at};

use csp_base::Port;

/// A service of a node.
#[derive(Clone, Copy)]
pub enum Service {
    /// The management protocol, at port 0.
    Cmp,
    /// Port 1: the request comes back.
    Ping,
    /// Port 3: how many bytes of memory there are.
    FreeMemory,
    /// Port 4: the node is asked to start again, or to stop.
    Reboot,
    /// Port 6: for how many seconds the node has run.
    Uptime,
}

impl Service {
    /// The service at a port, where one is.
    pub fn at(port: Port) -> Option<Service>
        ensures { result ≡ service_at port }
    {
        match port.get() {
            0 => Some(Service::Cmp),
            1 => Some(Service::Ping),
            3 => Some(Service::FreeMemory),
            4 => Some(Service::Reboot),
            6 => Some(Service::Uptime),
            _ => None,
        }
    }
}
