//! What every step of a node's ports keeps of the reliable connections on their slots.

ghost use Rattle.csp_prefix.specs.Flows.{Flows};
ghost use Rattle.csp_prefix.specs.Machines.{IsReceiver, IsSender, true_packets, whatever};
ghost use Rattle.csp_prefix.specs.Ports.{ArePortsKept};
ghost use Rattle.csp_ports.specs.declared.flows.OwnFlows.{OwnFlows};

/// Each step of the ports keeps what is known of the connection on each slot as a sender, whatever packets are handed to it.
pub fn keeps_senders()
    ensures { (o : OwnFlows) → ArePortsKept o whatever (IsSender o) }
{}

/// And so it does with what is known of it as a receiver, where the packets handed to it are true of their flows.
pub fn keeps_receivers()
    ensures { (o : OwnFlows) (flows : Flows) → ArePortsKept o (true_packets flows) (IsReceiver flows) }
{}
