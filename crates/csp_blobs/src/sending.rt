//! What an application pushes by its script.

ghost use Rattle.csp_blobs.specs.Sending.{PushSteps, SendPieces};

/// An application pushes what its steps say, in order: its log shows a beginning of the notes and packets of its steps; from a step on,
/// a beginning of those of that step and the steps after it; and before a note just those of the steps before the one that asks it.
pub fn pushes_its_steps()
    ensures { PushSteps }
{}

/// On a slot on which no step sends packets as it says, an application pushes a beginning of the pieces of the blobs that its steps
/// send there, in order; and so from a step on, and after a note, of the blobs of the steps from there on.
pub fn sends_pieces()
    ensures { SendPieces }
{
    pushes_its_steps();
}
