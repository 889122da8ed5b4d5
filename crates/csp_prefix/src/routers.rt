//! What holds of a router by its own log, whatever comes to it.

ghost use Rattle.csp_prefix.specs.Routers.{AreTrueRouters};

/// Each connection of a router that became open is on a slot of one of its applications, and each reliable one has a
/// number of its own; where flows are those that its log
/// shows, each packet that it sends is genuine, or goes out as it came; and where it hears genuine
/// packets alone, of which none is stale, what it delivers on a connection is a beginning of what the
/// connection's peer sent.
pub fn routers_are_true()
    ensures { AreTrueRouters }
{}
