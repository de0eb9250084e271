//! The fields of a node-revision, as its lines say them one after another.
ghost use Rattle.std.specs.Prelude.{◌≡◌, ℕ, List, Option, Some, IfOk, IfErr, OnOk, IfSome, IsSomeAnd, MatchOption};
ghost use Rattle.fsfs_base.specs.Paths.{Path};
ghost use Rattle.fsfs_base.specs.declared.kind.Kind.{Kind};
ghost use Rattle.fsfs_noderev.specs.declared.node_rev.CopySource.{CopySource};
ghost use Rattle.fsfs_noderev.specs.declared.node_rev.CopyRoot.{CopyRoot};
ghost use Rattle.fsfs_noderev.specs.declared.node_id.NodeId.{NodeId};
ghost use Rattle.fsfs_noderev.specs.declared.rep.Contents.{Contents};
ghost use Rattle.fsfs_noderev.specs.Fields.{field_named, IsIdText, IsKindText, AreContentsText, IsPathText, IsSourceText, IsRootText, Puts, Refuses, nothing};
ghost use Rattle.fsfs_noderev.specs.Ids.{IsNumber64};
ghost use Rattle.fsfs_noderev.specs.Faults.{IfRefused};

use crate::node_id::{NodeId, read_id};
use crate::node_rev::{CopyRoot, CopySource, Field, Which};
use crate::rep::{Contents, read_contents, rev_or_none};
use fsfs_base::cuts::cut_at;
use fsfs_base::{FsPath, Kind, PathError, RevNum, read_dec};
use std::alloc::{AllocError, Global};

/// What the lines read so far have said of a node-revision.
#[derive(Drop)]
pub struct Fields {
    pub id: Option<NodeId>,
    pub kind: Option<Kind>,
    pub predecessor: Option<NodeId>,
    pub count: Option<u64>,
    pub text: Option<Contents>,
    pub props: Option<Contents>,
    pub created_path: Option<FsPath>,
    pub copy_from: Option<CopySource>,
    pub copy_root: Option<CopyRoot>,
    pub fresh_txn_root: Option<()>,
    pub mergeinfo_count: Option<u64>,
    pub mergeinfo_here: Option<()>,
}

/// A line was refused, or memory ran out.
#[derive(Clone, Copy)]
pub(crate) enum LineError {
    OutOfMemory,
    Refused(Which),
}

impl From<AllocError> for LineError {
    ghost use Rattle.fsfs_noderev.specs.declared.fields.LineError.TheVariants.{OutOfMemory};

    ghost from_gives = { λ _ e. e ≡ OutOfMemory };

    fn from(_error: AllocError) -> LineError {
        LineError::OutOfMemory
    }
}

impl From<Which> for LineError {
    ghost use Rattle.fsfs_noderev.specs.declared.fields.LineError.TheVariants.{Refused};

    ghost from_gives = { λ which e. e ≡ Refused which };

    fn from(which: Which) -> LineError {
        LineError::Refused(which)
    }
}

/// The field that a line of this name is of; none for a name that is skipped.
pub(crate) fn field_named(name: &[u8]) -> Option<Field>
    ensures { result ≡ field_named name.now }
{
    if name == b"id".as_slice() {
        Some(Field::Id)
    } else if name == b"type".as_slice() {
        Some(Field::NodeKind)
    } else if name == b"pred".as_slice() {
        Some(Field::Predecessor)
    } else if name == b"count".as_slice() {
        Some(Field::Count)
    } else if name == b"text".as_slice() {
        Some(Field::Text)
    } else if name == b"props".as_slice() {
        Some(Field::Props)
    } else if name == b"cpath".as_slice() {
        Some(Field::CreatedPath)
    } else if name == b"copyfrom".as_slice() {
        Some(Field::CopiedFrom)
    } else if name == b"copyroot".as_slice() {
        Some(Field::CopiedRoot)
    } else if name == b"is-fresh-txn-root".as_slice() {
        Some(Field::FreshTxnRoot)
    } else if name == b"minfo-cnt".as_slice() {
        Some(Field::MergeinfoCount)
    } else if name == b"minfo-here".as_slice() {
        Some(Field::MergeinfoHere)
    } else {
        None
    }
}

fn kind_of(text: &[u8]) -> Option<Kind>
    ensures found { IfSome result (IsKindText text.now) }
    ensures only { (k : Kind) → IsKindText text.now k → result ≡ Some k }
{
    if text == b"file".as_slice() {
        Some(Kind::File)
    } else if text == b"dir".as_slice() {
        Some(Kind::Dir)
    } else {
        None
    }
}

fn path_of(alloc: Global, text: &[u8]) -> Result<Option<FsPath>, AllocError>
    ensures found { IfOk result (λ o. IfSome o (IsPathText text.now)) }
    ensures only { (p : Path) → IsPathText text.now p → IfOk result (λ o. o ≡ Some p) }
{
    match str::from_utf8(text) {
        Err(_) => Ok(None),
        Ok(text) => match FsPath::parse(alloc, text) {
            Ok(path) => Ok(Some(path)),
            Err(PathError::Bad(_)) => Ok(None),
            Err(PathError::OutOfMemory) => Err(AllocError),
        },
    }
}

fn source_of(alloc: Global, text: &[u8]) -> Result<Option<CopySource>, AllocError>
    ensures found { IfOk result (λ o. IfSome o (IsSourceText text.now)) }
    ensures only { (s : CopySource) → IsSourceText text.now s → IfOk result (λ o. o ≡ Some s) }
{
    match cut_at(b' ', text) {
        None => Ok(None),
        Some((front, rest)) => match RevNum::plain(front) {
            None => Ok(None),
            Some(rev) => match path_of(alloc, rest)? {
                None => Ok(None),
                Some(path) => Ok(Some(CopySource { rev, path })),
            },
        },
    }
}

fn root_of(alloc: Global, text: &[u8]) -> Result<Option<CopyRoot>, AllocError>
    ensures found { IfOk result (λ o. IfSome o (IsRootText text.now)) }
    ensures only { (r : CopyRoot) → IsRootText text.now r → IfOk result (λ o. o ≡ Some r) }
{
    match cut_at(b' ', text) {
        None => Ok(None),
        Some((front, rest)) => match rev_or_none(front) {
            None => Ok(None),
            Some(rev) => match path_of(alloc, rest)? {
                None => Ok(None),
                Some(path) => Ok(Some(CopyRoot { rev, path })),
            },
        },
    }
}

impl Fields {
    /// Nothing so far.
    pub fn new() -> Fields
        ensures { result ≡ nothing }
    {
        Fields {
            id: None,
            kind: None,
            predecessor: None,
            count: None,
            text: None,
            props: None,
            created_path: None,
            copy_from: None,
            copy_root: None,
            fresh_txn_root: None,
            mergeinfo_count: None,
            mergeinfo_here: None,
        }
    }

    // An id and where a text stands are read into their places, since what is matched and wrapped again is cleared and copied
    // at each step.
    fn set_id(&mut self, value: &[u8]) -> Result<(), Which>
        ensures ok { OnOk result (Puts (Some Field.Id) value.now self.old self.new) }
        ensures err { IfErr result (Refuses (Some Field.Id) value.now self.old) }
    {
        if self.id.is_some() {
            return Err(Which::Twice(Field::Id));
        }
        self.id = read_id(value);
        if self.id.is_none() {
            return Err(Which::BadValue(Field::Id));
        }
        Ok(())
    }

    fn set_kind(&mut self, value: &[u8]) -> Result<(), Which>
        ensures ok { OnOk result (Puts (Some Field.NodeKind) value.now self.old self.new) }
        ensures err { IfErr result (Refuses (Some Field.NodeKind) value.now self.old) }
    {
        if self.kind.is_some() {
            return Err(Which::Twice(Field::NodeKind));
        }
        match kind_of(value) {
            None => Err(Which::BadValue(Field::NodeKind)),
            Some(kind) => {
                self.kind = Some(kind);
                Ok(())
            }
        }
    }

    fn set_predecessor(&mut self, value: &[u8]) -> Result<(), Which>
        ensures ok { OnOk result (Puts (Some Field.Predecessor) value.now self.old self.new) }
        ensures err { IfErr result (Refuses (Some Field.Predecessor) value.now self.old) }
    {
        if self.predecessor.is_some() {
            return Err(Which::Twice(Field::Predecessor));
        }
        self.predecessor = read_id(value);
        if self.predecessor.is_none() {
            return Err(Which::BadValue(Field::Predecessor));
        }
        Ok(())
    }

    fn set_count(&mut self, value: &[u8]) -> Result<(), Which>
        ensures ok { OnOk result (Puts (Some Field.Count) value.now self.old self.new) }
        ensures err { IfErr result (Refuses (Some Field.Count) value.now self.old) }
    {
        if self.count.is_some() {
            return Err(Which::Twice(Field::Count));
        }
        match read_dec(value) {
            None => Err(Which::BadValue(Field::Count)),
            Some(count) => {
                self.count = Some(count);
                Ok(())
            }
        }
    }

    fn set_text(&mut self, value: &[u8]) -> Result<(), Which>
        ensures ok { OnOk result (Puts (Some Field.Text) value.now self.old self.new) }
        ensures err { IfErr result (Refuses (Some Field.Text) value.now self.old) }
    {
        if self.text.is_some() {
            return Err(Which::Twice(Field::Text));
        }
        self.text = read_contents(value);
        if self.text.is_none() {
            return Err(Which::BadValue(Field::Text));
        }
        Ok(())
    }

    fn set_props(&mut self, value: &[u8]) -> Result<(), Which>
        ensures ok { OnOk result (Puts (Some Field.Props) value.now self.old self.new) }
        ensures err { IfErr result (Refuses (Some Field.Props) value.now self.old) }
    {
        if self.props.is_some() {
            return Err(Which::Twice(Field::Props));
        }
        self.props = read_contents(value);
        if self.props.is_none() {
            return Err(Which::BadValue(Field::Props));
        }
        Ok(())
    }

    fn set_mergeinfo_count(&mut self, value: &[u8]) -> Result<(), Which>
        ensures ok { OnOk result (Puts (Some Field.MergeinfoCount) value.now self.old self.new) }
        ensures err { IfErr result (Refuses (Some Field.MergeinfoCount) value.now self.old) }
    {
        if self.mergeinfo_count.is_some() {
            return Err(Which::Twice(Field::MergeinfoCount));
        }
        match read_dec(value) {
            None => Err(Which::BadValue(Field::MergeinfoCount)),
            Some(count) => {
                self.mergeinfo_count = Some(count);
                Ok(())
            }
        }
    }

    fn set_created_path(&mut self, alloc: Global, value: &[u8]) -> Result<(), LineError>
        ensures ok { OnOk result (Puts (Some Field.CreatedPath) value.now self.old self.new) }
        ensures err { IfErr result (IfRefused (Refuses (Some Field.CreatedPath) value.now self.old)) }
    {
        if self.created_path.is_some() {
            return Err(LineError::Refused(Which::Twice(Field::CreatedPath)));
        }
        match path_of(alloc, value)? {
            None => Err(LineError::Refused(Which::BadValue(Field::CreatedPath))),
            Some(path) => {
                self.created_path = Some(path);
                Ok(())
            }
        }
    }

    fn set_copy_from(&mut self, alloc: Global, value: &[u8]) -> Result<(), LineError>
        ensures ok { OnOk result (Puts (Some Field.CopiedFrom) value.now self.old self.new) }
        ensures err { IfErr result (IfRefused (Refuses (Some Field.CopiedFrom) value.now self.old)) }
    {
        if self.copy_from.is_some() {
            return Err(LineError::Refused(Which::Twice(Field::CopiedFrom)));
        }
        match source_of(alloc, value)? {
            None => Err(LineError::Refused(Which::BadValue(Field::CopiedFrom))),
            Some(source) => {
                self.copy_from = Some(source);
                Ok(())
            }
        }
    }

    fn set_copy_root(&mut self, alloc: Global, value: &[u8]) -> Result<(), LineError>
        ensures ok { OnOk result (Puts (Some Field.CopiedRoot) value.now self.old self.new) }
        ensures err { IfErr result (IfRefused (Refuses (Some Field.CopiedRoot) value.now self.old)) }
    {
        if self.copy_root.is_some() {
            return Err(LineError::Refused(Which::Twice(Field::CopiedRoot)));
        }
        match root_of(alloc, value)? {
            None => Err(LineError::Refused(Which::BadValue(Field::CopiedRoot))),
            Some(root) => {
                self.copy_root = Some(root);
                Ok(())
            }
        }
    }

    fn set_fresh_txn_root(&mut self, value: &[u8]) -> Result<(), Which>
        ensures ok { OnOk result (Puts (Some Field.FreshTxnRoot) value.now self.old self.new) }
        ensures err { IfErr result (Refuses (Some Field.FreshTxnRoot) value.now self.old) }
    {
        if self.fresh_txn_root.is_some() {
            return Err(Which::Twice(Field::FreshTxnRoot));
        }
        if value != b"y".as_slice() {
            return Err(Which::BadValue(Field::FreshTxnRoot));
        }
        self.fresh_txn_root = Some(());
        Ok(())
    }

    fn set_mergeinfo_here(&mut self, value: &[u8]) -> Result<(), Which>
        ensures ok { OnOk result (Puts (Some Field.MergeinfoHere) value.now self.old self.new) }
        ensures err { IfErr result (Refuses (Some Field.MergeinfoHere) value.now self.old) }
    {
        if self.mergeinfo_here.is_some() {
            return Err(Which::Twice(Field::MergeinfoHere));
        }
        if value != b"y".as_slice() {
            return Err(Which::BadValue(Field::MergeinfoHere));
        }
        self.mergeinfo_here = Some(());
        Ok(())
    }

    /// Takes a line of this field.
    pub(crate) fn set(&mut self, alloc: Global, field: Field, value: &[u8]) -> Result<(), LineError>
        ensures ok { OnOk result (Puts (Some field) value.now self.old self.new) }
        ensures err { IfErr result (IfRefused (Refuses (Some field) value.now self.old)) }
    {
        match field {
            Field::Id => self.set_id(value)?,
            Field::NodeKind => self.set_kind(value)?,
            Field::Predecessor => self.set_predecessor(value)?,
            Field::Count => self.set_count(value)?,
            Field::Text => self.set_text(value)?,
            Field::Props => self.set_props(value)?,
            Field::CreatedPath => self.set_created_path(alloc, value)?,
            Field::CopiedFrom => self.set_copy_from(alloc, value)?,
            Field::CopiedRoot => self.set_copy_root(alloc, value)?,
            Field::FreshTxnRoot => self.set_fresh_txn_root(value)?,
            Field::MergeinfoCount => self.set_mergeinfo_count(value)?,
            Field::MergeinfoHere => self.set_mergeinfo_here(value)?,
        }
        Ok(())
    }
}
