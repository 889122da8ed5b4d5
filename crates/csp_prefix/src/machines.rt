//! What holds of a reliable connection on a slot, step by step: of one that sends, and of one that receives.

ghost use Rattle.csp_ports.specs.declared.flows.OwnFlows.{OwnFlows};
ghost use Rattle.csp_prefix.specs.Flows.{Flows};
ghost use Rattle.csp_prefix.specs.Machines.{IsReceiver, IsSender, MakesTrue, OpensNumbered, Receives, true_packets, whatever};
ghost use Rattle.csp_prefix.specs.Slots.{IsKept};

/// Each step of a reliable connection, whatever is handed to it, keeps what is known of it as a
/// sender; what it says in its packets is true, and where it became open it has its number.
pub fn machines_send()
    ensures kept { (o : OwnFlows) → IsKept o whatever (IsSender o) }
    ensures says { (o : OwnFlows) → MakesTrue (IsSender o) o }
    ensures opens { (o : OwnFlows) → OpensNumbered (IsSender o) }
{}

/// Each step of a reliable connection, to which only packets of its peer's flow are handed, keeps what
/// is known of it as a receiver; and what it delivered is a beginning of the peer's flow.
pub fn machines_receive()
    ensures kept { (o : OwnFlows) (flows : Flows) → IsKept o (true_packets flows) (IsReceiver flows) }
    ensures receives { (flows : Flows) → Receives (IsReceiver flows) flows }
{}
