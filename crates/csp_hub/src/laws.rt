//! What holds of a hub over all its turns.

ghost use Rattle.std.specs.Prelude.{ℕ, List};
ghost use Rattle.csp_deck.specs.Runs.{Runs};
ghost use Rattle.csp_hub.specs.Applied.{AppliesPlan, hub_steps};
ghost use Rattle.csp_hub.specs.PlainHub.{PlainHub, opening};
ghost use Rattle.csp_link.specs.declared.fault.Fault.{Fault};
ghost use Rattle.csp_log.specs.declared.entry.Entry.{Entry};

/// A hub applies its plan: after any turns from its opening on, what was pushed to each end and what is still held for it
/// are together just the copies that the plan makes of the frames which were popped from the other ends, each copy once.
pub fn applies_its_plan()
    ensures { (ends : ℕ) (plan : List Fault) (es : List Entry) (h : PlainHub) → Runs hub_steps (opening ends plan) es h → AppliesPlan plan es h }
{}
