//! The laws of drafts. Each of these functions does nothing: what it ensures is proved once for all folders.
ghost use Rattle.fsfs_draft.specs.Whole.{DraftsAreHanded};
ghost use Rattle.std.specs.Prelude.{◌≡◌, ℕ};
ghost use Rattle.fsfs_base.specs.Paths.{Path};
ghost use Rattle.fsfs_tree.specs.Nodes.{TreeFunction};
ghost use Rattle.fsfs_draft.specs.Own.{nothing, draft_tree};
ghost use Rattle.fsfs_draft.specs.Beginning.{BegunDrafts};
ghost use Rattle.fsfs_draft.specs.Handed.{DraftsDraw, DraftsHang, DraftsKeepSides, SidesAreMarks};
ghost use Rattle.fsfs_draft.specs.Marking.{MarksAreKept};
ghost use Rattle.fsfs_draft.specs.Laying.{StepsAreEdits, StepsKeepSides};
ghost use Rattle.fsfs_draft.specs.Edits.{EditsKeepDrafts};
ghost use Rattle.fsfs_draft.specs.Moving.{EditsMove, StepsMove};
ghost use Rattle.fsfs_draft.specs.Outer.{EditsKeepMarks, MadeIsKept, OuterIsHeld};
ghost use Rattle.fsfs_draft.specs.Setting.{SettingsAreEdits};
ghost use Rattle.fsfs_draft.specs.Staying.{DraftsStay};
ghost use Rattle.fsfs_draft.specs.Tied.{TiedDrafts, TiedAreMet};

/// Where nothing is the transaction's own, its tree is that of its base.
pub fn a_draft_begins_as_its_base()
    ensures { (trees : ℕ → TreeFunction) (tree : TreeFunction) (path : Path) → draft_tree trees nothing tree path ≡ tree path }
{}

/// What is met in a draft, path by path, hangs together as the rules of ids will have it.
pub fn drafts_hang()
    ensures { DraftsHang }
{}

/// What a draft's marks say of its base is what is met in it.
pub fn drafts_keep_sides()
    ensures { DraftsKeepSides }
{}

/// And where what is met is what marks say, the marks say what the draft holds.
pub fn sides_are_marks()
    ensures { SidesAreMarks }
{}

/// What hangs together path by path is a draft, where a folder has its own node-revisions.
pub fn tied_drafts()
    ensures { TiedDrafts }
{}

/// And where it has all, it is what is met in that draft.
pub fn tied_are_met()
    ensures { TiedAreMet }
{}

/// And it is the draft of the tree that is shown: its paths and kinds, and the copies that its nodes came with.
pub fn drafts_draw()
    ensures { DraftsDraw }
{}

/// A transaction that has just begun is a draft, and has no marks.
pub fn begun_drafts()
    ensures { BegunDrafts }
{}

/// One mark more says what the draft holds, where the edit changed its own node-revisions at the base's paths as the mark says.
pub fn marks_are_kept()
    ensures { MarksAreKept }
{}

/// A transaction that has just begun is a whole draft; and a whole draft has all that a merge and a commit take.
pub fn drafts_are_handed()
    ensures { DraftsAreHanded }
{}

/// What is laid behind a name of an own directory, or taken away there, leaves a draft, and its tree is that of the flat edit: one
/// node more, a copy, something less, or the same tree. No other path is changed.
pub fn steps_are_edits()
    ensures { StepsAreEdits }
{}

/// And the files, the drawn parts and the sources are kept.
pub fn steps_keep_sides()
    ensures { StepsKeepSides }
{}

/// A text or properties put at an own node-revision leave a draft, with the flat edit's tree, and the rest is kept.
pub fn settings_are_edits()
    ensures { SettingsAreEdits }
{}

/// What a step does where the base has something: the base is held as it was, or no longer at and below the path.
pub fn steps_move()
    ensures { StepsMove }
{}

/// So an edit of opened directories and a last step moves what its mark says.
pub fn edits_move()
    ensures { EditsMove }
{}

/// Steps keep that the paths which the marks made are those where own node-revisions stand anew.
pub fn made_is_kept()
    ensures { MadeIsKept }
{}

/// Where an edit moved what its mark says, the marks say what the draft holds with that mark, be it outer or not.
pub fn edits_keep_marks()
    ensures { EditsKeepMarks }
{}

/// So a path of the draft is at or below one that the marks made exactly where the draft doesn't hold the base there.
pub fn outer_is_held()
    ensures { OuterIsHeld }
{}

/// A whole edit, of opened directories and a last step, or a text or properties that are set, leaves a draft with the flat edit's
/// tree and one mark more.
pub fn edits_keep_drafts()
    ensures { EditsKeepDrafts }
{}

/// A draft stays one of the same tree and marks while others commit.
pub fn drafts_stay()
    ensures { DraftsStay }
{}
