//! The laws of sound revisions. Each of these functions does nothing: what it ensures is proved once for all bytes.
ghost use Rattle.fsfs_sound.specs.Laws.{SoundRevisionsShowAHistory, HistoriesHaveNoDamage};
ghost use Rattle.fsfs_sound.specs.Parts.{PartsAreNotAhead, WhatIsBehindIsEarlier};

/// Where each revision up to one keeps the rules by itself, the bytes of all of them and their property files show a history, and no
/// text in it is a delta.
pub fn sound_revisions_show_a_history()
    ensures { SoundRevisionsShowAHistory }
{}

/// Where the bytes of the revisions and their property files show a history whose texts are all read, nothing is wrong with them: no
/// kind of damage that a check tells is there.
pub fn histories_have_no_damage()
    ensures { HistoriesHaveNoDamage }
{}

/// In sound trees what is behind a node-revision in its chain of predecessors is of an earlier revision, and no node-revision has a
/// copy part of a later revision than its own. So one that looks for a part in the chain may stop at the part's revision.
pub fn parts_are_not_ahead()
    ensures parts { PartsAreNotAhead }
    ensures behind { WhatIsBehindIsEarlier }
{}
