//! What the run of an application gives.

ghost use Rattle.csp_prefix.specs.Apps.{AreTrueApps};

/// An application puts packets without a trace into its `Up`, and what it took on a connection are the
/// payloads of what it got from its `Down`.
pub fn applications_are_true()
    ensures { AreTrueApps }
{}
