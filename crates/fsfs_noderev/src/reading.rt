//! Node-revisions read from their lines.
ghost use Rattle.std.specs.Prelude.{◌≡◌, ◌<◌, ◌-◌, ◌∷◌, List, ℕ, length, take, option_map, OnOk, IfOk, IfErr, MatchOption, MatchResult};
ghost use Rattle.fsfs_noderev.specs.Lines.{pair_at};
ghost use Rattle.fsfs_noderev.specs.Fields.{field_named, Puts, Refuses, nothing};
ghost use Rattle.fsfs_noderev.specs.Faults.{IfRefused};
ghost use Rattle.fsfs_noderev.specs.NodeRevs.{IsRefused, StopsAt, IsMissing, Means, AreFull, AreRead, IsRead};
ghost use Rattle.fsfs_noderev.specs.Writing.{HasText};
ghost use Rattle.fsfs_noderev.specs.Steps.{StepIs, StopIs, HasFront, IsExact, IsOutOfMemory};
ghost use Rattle.fsfs_noderev.specs.declared.node_rev.NodeRev.{NodeRev};
ghost use Rattle.fsfs_noderev.specs.declared.node_rev.Which.TheVariants.{Missing};

use crate::fields::{Fields, LineError, field_named};
use crate::node_rev::{Field, NodeFault, NodeRev, Which};
use fsfs_base::cuts::cut_at;
use std::alloc::Global;

/// How many bytes of a node-revision are read at most.
pub const MAX_NODE_REV: usize = 65536;

/// A node-revision was not read.
#[derive(Clone, Copy)]
pub enum NodeError {
    OutOfMemory,
    Fault(NodeFault),
}

/// What stands behind the line that was read: more lines, or the end.
#[derive(Clone, Copy)]
enum Step<'a> {
    More(&'a [u8]),
    End(&'a [u8]),
}

/// Reading stops: how many bytes are left, and why.
#[derive(Clone, Copy)]
enum Stop {
    OutOfMemory,
    At(usize, Which),
}

/// The name and the value of a line without its end.
fn pair_of(text: &[u8]) -> Option<(&[u8], &[u8])>
    ensures { option_map (λ p. (p.0.now, p.1.now)) result ≡ pair_at text.now }
{
    match cut_at(b':', text) {
        None => None,
        Some((name, rest)) => match name {
            [] => None,
            [_, ..] => match rest {
                [b' ', value @ ..] => Some((name, value)),
                _ => None,
            },
        },
    }
}

impl Fields {
    /// Takes a line of this name.
    fn take_named(&mut self, alloc: Global, name: &[u8], value: &[u8]) -> Result<(), LineError>
        ensures ok { OnOk result (Puts (field_named name.now) value.now self.old self.new) }
        ensures err { IfErr result (IfRefused (Refuses (field_named name.now) value.now self.old)) }
    {
        match field_named(name) {
            None => Ok(()),
            Some(field) => self.set(alloc, field, value),
        }
    }

    /// Takes the line that the bytes begin with.
    fn take_line<'a>(&mut self, alloc: Global, bytes: &'a [u8]) -> Result<Step<'a>, Stop>
        ensures taken { IfOk result (StepIs self.old self.new bytes.now) }
        ensures refused { IfErr result (StopIs (IsRefused self.old bytes.now)) }
    {
        match cut_at(b'\n', bytes) {
            None => Err(Stop::At(0, Which::NoEnd)),
            Some((text, rest)) => match text {
                [] => Ok(Step::End(rest)),
                [_, ..] => match pair_of(text) {
                    None => Err(Stop::At(bytes.len(), Which::BadLine)),
                    Some((name, value)) => match self.take_named(alloc, name, value) {
                        Ok(()) => Ok(Step::More(rest)),
                        Err(LineError::OutOfMemory) => Err(Stop::OutOfMemory),
                        Err(LineError::Refused(which)) => Err(Stop::At(bytes.len(), which)),
                    },
                },
            },
        }
    }

    /// The first field that a node-revision must have and that is absent.
    fn lacks(&self) -> Option<Field>
        ensures { MatchOption result (AreFull self.now) (λ field. IsMissing self.now (Missing field)) }
    {
        if self.id.is_none() {
            Some(Field::Id)
        } else if self.kind.is_none() {
            Some(Field::NodeKind)
        } else if self.created_path.is_none() {
            Some(Field::CreatedPath)
        } else {
            None
        }
    }

    /// The node-revision of these fields. What they own is moved out of them.
    pub fn take_node(&mut self) -> NodeRev
        requires { AreFull self.old }
        ensures { Means self.old result }
    {
        let Some(created_path) = self.created_path.take() else {
            unreachable!()
        };
        let Some(id) = &self.id else { unreachable!() };
        let Some(kind) = self.kind else {
            unreachable!()
        };
        NodeRev {
            id: *id,
            kind,
            predecessor: self.predecessor,
            count: self.count.unwrap_or(0),
            text: self.text,
            props: self.props,
            created_path,
            copy_from: self.copy_from.take(),
            copy_root: self.copy_root.take(),
            is_fresh_txn_root: self.fresh_txn_root.is_some(),
            mergeinfo_count: self.mergeinfo_count,
            has_mergeinfo: self.mergeinfo_here.is_some(),
        }
    }
}

/// Takes the lines up to the empty one, and gives the bytes behind that.
fn read_lines<'a>(alloc: Global, bytes: &'a [u8], fields: &mut Fields) -> Result<&'a [u8], Stop>
    requires { fields.old ≡ nothing }
    ensures front { IfOk result (λ rest. HasFront bytes.now fields.new (10 ∷ rest.now)) }
    ensures stops { IfErr result (StopIs (StopsAt nothing bytes.now)) }
{
    let mut rest = bytes;
    'lines: loop {
        match fields.take_line(alloc, rest) {
            Err(stop) => return Err(stop),
            Ok(Step::End(after)) => return Ok(after),
            Ok(Step::More(after)) => rest = after,
        }
    }
}

/// The fields of the node-revision that all of these bytes begin with.
fn read_all(alloc: Global, bytes: &[u8], fields: &mut Fields) -> Result<(), NodeError>
    requires { fields.old ≡ nothing }
    ensures found { OnOk result (AreRead bytes.now fields.new) }
    ensures only { (n : NodeRev) → IsRead bytes.now n → MatchResult result (λ _. Means fields.new n) IsOutOfMemory }
    ensures fault { IfErr result (IsExact bytes.now) }
{
    match read_lines(alloc, bytes, fields) {
        Err(Stop::OutOfMemory) => Err(NodeError::OutOfMemory),
        Err(Stop::At(left, which)) => Err(NodeError::Fault(NodeFault {
            at: bytes.len().saturating_sub(left),
            which,
        })),
        Ok(rest) => match fields.lacks() {
            None => Ok(()),
            Some(field) => Err(NodeError::Fault(NodeFault {
                at: bytes.len().saturating_sub(rest.len()),
                which: Which::Missing(field),
            })),
        },
    }
}

fn front(limit: usize, bytes: &[u8]) -> &[u8]
    ensures { result.now ≡ take limit bytes.now }
{
    if bytes.len() > limit {
        &bytes[..limit]
    } else {
        bytes
    }
}

/// Reads the fields of the node-revision that the bytes begin with into fields that have nothing so far. `read_noderev` says
/// what is read and what is refused; here nothing as big as a node-revision is handed from call to call.
pub fn read_fields(alloc: Global, bytes: &[u8], fields: &mut Fields) -> Result<(), NodeError>
    requires { fields.old ≡ nothing }
    ensures found { OnOk result (AreRead (take 65536 bytes.now) fields.new) }
    ensures only { (n : NodeRev) → IsRead (take 65536 bytes.now) n → MatchResult result (λ _. Means fields.new n) IsOutOfMemory }
    ensures fault { IfErr result (IsExact (take 65536 bytes.now)) }
{
    read_all(alloc, front(MAX_NODE_REV, bytes), fields)
}

/// The node-revision that the bytes begin with: lines of a name, a colon, a space and a value, and an empty line.
///
/// At most 65,536 bytes are read. A line of an unknown name is skipped. The first line that is refused is named, and why:
/// it is no such line, its field was there already, or its value is not in its form, in this order. Behind the empty line
/// a field may be missing. (The rule that a field comes once, and the limit, are this project's profile.)
pub fn read_noderev(alloc: Global, bytes: &[u8]) -> Result<NodeRev, NodeError>
    ensures found { IfOk result (IsRead (take 65536 bytes.now)) }
    ensures only { (n : NodeRev) → IsRead (take 65536 bytes.now) n → MatchResult result (λ m. m ≡ n) IsOutOfMemory }
    ensures fault { IfErr result (IsExact (take 65536 bytes.now)) }
    // What is read can be written.
    ensures writable { IfOk result HasText }
{
    let mut fields = Fields::new();
    match read_fields(alloc, bytes, &mut fields) {
        Err(error) => Err(error),
        Ok(()) => Ok(fields.take_node()),
    }
}
