//! Laws of a node's ports, over their definitions.

ghost use Rattle.std.specs.Prelude.{◌+◌, ◌≤◌, ℕ};
ghost use Rattle.csp_ports.specs.Counts.{AreFar, greatest};
ghost use Rattle.csp_ports.specs.PlainPorts.{PlainPorts};

/// How far ports have come is said by the greatest of their numbers; what counts so much further at most
/// raises it by so much at most.
pub fn counts()
    ensures all { (n : ℕ) (p : PlainPorts) → greatest p ≤ n → AreFar n p }
    ensures more { (m : ℕ) (p q : PlainPorts) → ((n : ℕ) → AreFar n p → AreFar (n + m) q) → greatest q ≤ greatest p + m }
{}
