//! What pieces and a collector come to together.

ghost use Rattle.std.specs.Prelude.{◌≡◌, ℕ, ◌-◌, List, [], ◌∷◌, ◌++◌, Some, None, Ok, length, replicate};
ghost use Rattle.std.specs.List.{flat_map};
ghost use Rattle.csp_sfp.specs.Collecting.{CanAllBeCut, CollectsBeginning, Cut, all_pieces, blobs_of, collected};
ghost use Rattle.csp_sfp.specs.Gathering.{Gathering, answers, fed};
ghost use Rattle.csp_sfp.specs.Pieces.{CanBeCut, piece_count, pieces_of};
ghost use Rattle.csp_sfp.specs.Trailer.{data_of};
ghost use Rattle.csp_sfp.specs.declared.collector.SfpAnswer.TheVariants.{Part, Whole};

/// A collector with no blob under way that is fed the pieces of a blob has that blob whole with the last of them, and
/// with none before.
pub fn gathers_pieces()
    ensures blob { (g : Gathering) (blob : List ℕ) (size : ℕ) → g.total ≡ None → CanBeCut blob size → fed g (pieces_of blob size) ≡ record { total = None; bytes = blob } }
    ensures answers { (g : Gathering) (blob : List ℕ) (size : ℕ) → g.total ≡ None → CanBeCut blob size → answers g (pieces_of blob size) ≡ replicate (piece_count (length blob) size - 1) (Ok Part) ++ Ok Whole ∷ [] }
{}

/// What is collected is a beginning of what was cut. A collector with no blob under way is fed the first of the pieces
/// of some blobs, in order, each blob cut into pieces of a size of its own: it gives the first of these blobs, each
/// once and whole, and refuses nothing. Of all pieces it gives all blobs, and a last blob of which not all pieces came
/// gives nothing.
pub fn collects_a_prefix()
    ensures prefix { (g : Gathering) (cuts : List Cut) (payloads rest : List (List ℕ)) → g.total ≡ None → CanAllBeCut cuts → payloads ++ rest ≡ all_pieces cuts → CollectsBeginning g payloads (blobs_of cuts) }
    ensures all { (g : Gathering) (cuts : List Cut) → g.total ≡ None → CanAllBeCut cuts → collected g (all_pieces cuts) ≡ blobs_of cuts }
    ensures part { (g : Gathering) (cuts : List Cut) (last : Cut) (payloads : List (List ℕ)) (next : List ℕ) (rest : List (List ℕ)) → g.total ≡ None → CanAllBeCut cuts → CanBeCut last.blob last.size → payloads ++ next ∷ rest ≡ pieces_of last.blob last.size → collected g (all_pieces cuts ++ payloads) ≡ blobs_of cuts }
{}

/// A blob is the data of its pieces joined, however they were cut: where a collector with no blob under way answers
/// Part to all payloads but the last and Whole to that, it has just their data then, in order.
pub fn joins_data()
    ensures { (g : Gathering) (payloads : List (List ℕ)) (parts : ℕ) → g.total ≡ None → answers g payloads ≡ replicate parts (Ok Part) ++ Ok Whole ∷ [] → (fed g payloads).bytes ≡ flat_map data_of payloads }
{}
