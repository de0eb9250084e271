//! Worked revisions, shown by the definitions. The function does nothing: what it ensures is proved once.
ghost use Rattle.std.specs.Prelude.{◌≡◌, Ok};
ghost use Rattle.fsfs_revision.specs.Told.{RevisionBytes};
ghost use Rattle.fsfs_revision.specs.Shows.Shown.{Shows};
ghost use Rattle.fsfs_base.specs.FirstRevision.{first_bytes};
ghost use Rattle.fsfs_worked_laws.specs.FirstDirectory.{directory_bytes, directory_tree};
ghost use Rattle.fsfs_revision.specs.Shows.IdRules.{IdRule};

/// The bytes of a revision 1 that made a directory, behind those of revision 0, show it and obey the rules of ids.
pub fn a_directory_is_shown()
    ensures tree { (look : RevisionBytes) → look 0 ≡ Ok first_bytes → look 1 ≡ Ok directory_bytes → Shows look 1 directory_tree }
    ensures ids { (look : RevisionBytes) → look 0 ≡ Ok first_bytes → look 1 ≡ Ok directory_bytes → IdRule look 1 }
{}
