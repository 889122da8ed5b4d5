//! What holds of a link over all its turns.

ghost use Rattle.csp_deck.specs.Runs.{Runs};
ghost use Rattle.csp_link.specs.Applied.{AppliesPlan, link_steps};
ghost use Rattle.csp_link.specs.PlainLink.{PlainLink, opening};
ghost use Rattle.std.specs.Prelude.{List};
ghost use Rattle.csp_link.specs.declared.fault.Fault.{Fault};
ghost use Rattle.csp_log.specs.declared.entry.Entry.{Entry};
ghost use Rattle.csp_log.specs.declared.places.LinkKind.{LinkKind};

/// A link applies its plan: after any turns from its opening on, what each direction has pushed and
/// what it still holds are together just the copies that the plan makes of the frames which it has
/// popped, each copy once.
pub fn applies_its_plan()
    ensures { (kind : LinkKind) (plan : List Fault) (es : List Entry) (s : PlainLink) → Runs link_steps (opening kind plan) es s → AppliesPlan plan es s }
{}
