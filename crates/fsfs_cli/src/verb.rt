//! The word that names a command.
ghost use Rattle.std.specs.Prelude.{◌≡◌};
ghost use Rattle.fsfs_cli.specs.Commands.{revision_verb as revision_verb_named, verb_named};

use crate::tool::Tool;

/// A command, as its word names it.
#[derive(Clone, Copy)]
pub enum Verb {
    /// `svnadmin create`.
    Create,
    /// `svnadmin lstxns`.
    ListTxns,
    /// `svnadmin rmtxns`.
    RemoveTxns,
    /// `svnadmin dump`.
    Dump,
    /// `svnadmin verify`.
    Verify,
    /// `svnadmin pack`.
    Pack,
    /// `svnlook youngest`.
    Youngest,
    /// `svnlook uuid`.
    Uuid,
    /// `svnlook tree`.
    Tree,
    /// `svnlook cat`.
    Cat,
    /// `svnlook author`.
    Author,
    /// `svnlook date`.
    Date,
    /// `svnlook log`.
    Log,
    /// `svnlook info`.
    Info,
    /// `svnlook changed`.
    Changed,
    /// `svnlook history`.
    History,
}

/// The command that a word names, where the program has one of that name.
pub fn verb_of(tool: Tool, word: &str) -> Option<Verb>
    ensures { result ≡ verb_named tool word.now }
{
    match tool {
        Tool::Admin => admin_verb(word),
        Tool::Look => look_verb(word),
        Tool::Jobs => None,
    }
}

fn admin_verb(word: &str) -> Option<Verb>
    ensures { result ≡ verb_named Tool.Admin word.now }
{
    if word == "create" {
        Some(Verb::Create)
    } else if word == "lstxns" {
        Some(Verb::ListTxns)
    } else if word == "rmtxns" {
        Some(Verb::RemoveTxns)
    } else if word == "dump" {
        Some(Verb::Dump)
    } else if word == "verify" {
        Some(Verb::Verify)
    } else if word == "pack" {
        Some(Verb::Pack)
    } else {
        None
    }
}

fn look_verb(word: &str) -> Option<Verb>
    ensures { result ≡ verb_named Tool.Look word.now }
{
    if word == "youngest" {
        Some(Verb::Youngest)
    } else if word == "uuid" {
        Some(Verb::Uuid)
    } else if word == "tree" {
        Some(Verb::Tree)
    } else if word == "cat" {
        Some(Verb::Cat)
    } else if word == "history" {
        Some(Verb::History)
    } else {
        revision_verb(word)
    }
}

// The command of those that look at a revision as a whole.
fn revision_verb(word: &str) -> Option<Verb>
    ensures { result ≡ revision_verb_named word.now }
{
    if word == "author" {
        Some(Verb::Author)
    } else if word == "date" {
        Some(Verb::Date)
    } else if word == "log" {
        Some(Verb::Log)
    } else if word == "info" {
        Some(Verb::Info)
    } else if word == "changed" {
        Some(Verb::Changed)
    } else {
        None
    }
}
