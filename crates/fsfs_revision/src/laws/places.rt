//! The laws of where the bytes of revisions stand. Each of these functions does nothing: what it ensures is proved once for all
//! bytes.
ghost use Rattle.fsfs_revision.specs.ByGrammar.{FloorsAreByGrammar, ManifestsAreByGrammar};

/// The floor and the manifests by which the bytes of a revision are found are what the grammars of `db/min-unpacked-rev` and of
/// the manifests say, and they are refused just where these files are not in their grammars.
pub fn revisions_are_found_by_grammar()
    ensures floors { FloorsAreByGrammar }
    ensures manifests { ManifestsAreByGrammar }
{}
