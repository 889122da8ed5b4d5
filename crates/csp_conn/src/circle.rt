//! The circle of own ports.

ghost use Rattle.std.specs.Prelude.{◌≡◌, ◌≤◌, ◌<◌, ◌+◌};
ghost use Rattle.csp_conn.specs.Circle.{port_after};

use csp_base::{FIRST_OWN_PORT, Port};

/// How many ports a connection may have on its own node.
pub const OWN_PORTS: u8 = 16;

/// The own port so many steps after this one, in a circle.
pub(crate) fn port_after(last: Port, steps: u8) -> Port
    requires own { FIRST_OWN_PORT ≤ last }
    requires few { steps ≤ OWN_PORTS }
    ensures value { result ≡ port_after last steps }
    ensures own { FIRST_OWN_PORT ≤ result }
{
    let number = FIRST_OWN_PORT + (last.get() - FIRST_OWN_PORT + steps) % OWN_PORTS;
    Port::new(number).unwrap()
}
