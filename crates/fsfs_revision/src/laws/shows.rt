//! The laws of reading. Each of these functions does nothing: what it ensures is proved once for all bytes.
ghost use Rattle.std.specs.Prelude.{◌≡◌, ℕ, Ok};
ghost use Rattle.fsfs_base.specs.Paths.{Path, PathName};
ghost use Rattle.fsfs_tree.specs.Nodes.{TreeFunction};
ghost use Rattle.fsfs_revision.specs.Told.{RevisionBytes};
ghost use Rattle.fsfs_noderev.specs.declared.node_rev.NodeRev.{NodeRev};
ghost use Rattle.fsfs_revision.specs.declared.damage.RevOffset.{RevOffset};
ghost use Rattle.fsfs_revision.specs.Damage.Readings.{HasOneAnswer};
ghost use Rattle.fsfs_revision.specs.Shows.Reading.{NodeAt, RootOf, TextOf, PropsOf, EntriesOf, ChildOf, MetAt};
ghost use Rattle.fsfs_revision.specs.Shows.ByTree.{IsReadByTree};
ghost use Rattle.fsfs_revision.specs.Shows.Damaged.{DamageIsFirst};
ghost use Rattle.fsfs_revision.specs.Shows.Shown.{Shows};
ghost use Rattle.fsfs_revision.specs.Shows.TreeLaw.{IsSound};
ghost use Rattle.fsfs_base.specs.FirstRevision.{first_bytes};
ghost use Rattle.fsfs_revision.specs.Shows.FirstRevision.{first_tree};
ghost use Rattle.fsfs_revision.specs.Shows.IdRules.{IdRule};
ghost use Rattle.fsfs_revision.specs.declared.wrong.Wrong.{Wrong};

/// Whatever the bytes are, a reading has one answer at most: one value, or one thing that is wrong first, at one place.
pub fn readings_have_one_answer()
    ensures nodes { (look : RevisionBytes) (at : RevOffset) → HasOneAnswer (NodeAt look at) }
    ensures roots { (look : RevisionBytes) (rev : ℕ) → HasOneAnswer (RootOf look rev) }
    ensures texts { (look : RevisionBytes) (v : NodeRev) → HasOneAnswer (TextOf look v) }
    ensures props { (look : RevisionBytes) (v : NodeRev) → HasOneAnswer (PropsOf look v) }
    ensures entries { (look : RevisionBytes) (v : NodeRev) → HasOneAnswer (EntriesOf look v) }
    ensures children { (look : RevisionBytes) (v : NodeRev) (name : PathName) → HasOneAnswer (ChildOf look v name) }
    ensures paths { (look : RevisionBytes) (rev : ℕ) (path : Path) → HasOneAnswer (MetAt look rev path) }
{}

/// The bytes of the revisions show one tree at most as that of a revision.
pub fn one_tree_is_shown()
    ensures { (look : RevisionBytes) (rev : ℕ) (s t : TreeFunction) → Shows look rev s → Shows look rev t → (path : Path) → s path ≡ t path }
{}

/// A path meets what is wrong exactly where that is the first damage on the way down: the root of the revision isn't had, or a
/// directory stands above, all above it being whole, and its child of the next name isn't had.
pub fn damage_is_the_first()
    ensures { (look : RevisionBytes) (rev : ℕ) (path : Path) (w : Wrong) → DamageIsFirst look rev path w }
{}

/// Where the bytes show a tree, all that is read of it is by the tree: at a path the node that stands there, or the first path that
/// the tree lacks, or the file that is in the way, and never what is wrong; a directory's entries, the properties and the texts.
pub fn readings_answer_by_the_tree()
    ensures { (look : RevisionBytes) (rev : ℕ) (tree : TreeFunction) → Shows look rev tree → IsReadByTree look rev tree }
{}

/// The bytes that revision 0 of a new repository has show `/` alone, and obey the rules of ids.
pub fn the_first_revision_shows_its_root()
    ensures tree { (look : RevisionBytes) → look 0 ≡ Ok first_bytes → Shows look 0 first_tree }
    ensures ids { (look : RevisionBytes) → look 0 ≡ Ok first_bytes → IdRule look 0 }
{}

/// What the bytes of a revision show is a tree, its numbers are in order, and none is above the revision's.
pub fn shown_trees_are_sound()
    ensures { (look : RevisionBytes) (rev : ℕ) (tree : TreeFunction) → Shows look rev tree → IsSound rev tree }
{}
