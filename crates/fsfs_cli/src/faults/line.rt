//! The line of a fault but for its path, and the program's status.
ghost use Rattle.std.specs.Prelude.{◌≡◌, ◌+◌, ◌≤◌, ◌++◌, length};
ghost use Rattle.fsfs_cli.specs.Lines.{status_of};
ghost use Rattle.fsfs_cli.specs.Pieces.{fault_front, head_of};

use crate::Tool;
use crate::faults::fault::Fault;
use arrayvec::ArrayString;

// The name of a fault, and its values, a space before each.
pub(crate) type FaultText = ArrayString<208>;

// A name alone.
pub(crate) fn word(name: &str) -> FaultText
    requires { length name.now ≤ 208 }
    ensures { result.bytes ≡ name.now }
{
    let mut text = ArrayString::new();
    text.push_str(name);
    text
}

// A name, and the values behind it.
pub(crate) fn with_values(name: &str, values: &str) -> FaultText
    requires { length name.now + length values.now ≤ 208 }
    ensures { result.bytes ≡ name.now ++ values.now }
{
    let mut text = ArrayString::new();
    text.push_str(name);
    text.push_str(values);
    text
}

// The name of a fault, and its values; of a path the space alone.
pub(crate) fn fault_text(fault: &Fault) -> FaultText
    ensures { result.bytes ≡ fault_front fault.now }
{
    match fault {
        Fault::Words(why) => why.text(),
        Fault::Request(why) => why.front(),
        Fault::Repository(why) => why.text(),
        Fault::Outside(why) => why.text(),
        Fault::Limit(why) => why.text(),
        Fault::Memory => word("Memory"),
    }
}

/// The line of a fault down to its path: the program's name, a colon, a space, the fault's name and its values.
pub(crate) fn head_text(tool: Tool, fault: &Fault) -> ArrayString<240>
    ensures { result.bytes ≡ head_of tool fault.now }
{
    let mut text = ArrayString::new();
    text.push_str(tool.name());
    text.push_str(": ");
    text.push_str(fault_text(fault).as_str());
    text
}

/// The program's status after a fault: that of its group.
pub fn status(fault: &Fault) -> u8
    ensures { result ≡ status_of fault.now }
{
    match fault {
        Fault::Request(_) => 1,
        Fault::Words(_) => 2,
        Fault::Repository(_) => 3,
        Fault::Outside(_) => 4,
        Fault::Memory => 5,
        Fault::Limit(_) => 6,
    }
}
