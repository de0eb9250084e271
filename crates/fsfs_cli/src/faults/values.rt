//! The values of faults as they are printed, a space before each.
ghost use Rattle.std.specs.Prelude.{◌≡◌, ◌<◌, ◌≤◌, ◌+◌, ◌∷◌, ◌++◌, codes, length, slice_index, decimal};
ghost use Rattle.hex.specs.Hex.{encode_lower, lower_digits};
ghost use Rattle.fsfs_base.specs.Fields.TxnNames.{txn_text as text_of_txn};
ghost use Rattle.fsfs_cli.specs.Lines.{why_name, bad_path_values, small_values, at_values, rep_what_values, what_values, damage_values, txn_value, script_why, bad_script_values};

use arrayvec::ArrayString;
use fsfs_base::{BadPath, HexDigest, Name, PathFault, SmallFault, TxnName};
use fsfs_layout::{small_file_name, txn_entry};
use fsfs_revision::{Damage, DamageKind, RepWhat, RevOffset};
use fsfs_script::{BadScript, Why};
use itoa::Buffer;

const DIGITS: &[u8; 16] = b"0123456789abcdef";

// The name of the rule that a path's text breaks.
fn why_text(why: PathFault) -> &'static str
    ensures text { result.now ≡ why_name why }
    ensures short { length result.now ≤ 16 }
{
    match why {
        PathFault::NotAbsolute => "NotAbsolute",
        PathFault::PathTooLong => "PathTooLong",
        PathFault::TooDeep => "TooDeep",
        PathFault::EmptyName => "EmptyName",
        PathFault::Control => "Control",
        PathFault::NameTooLong => "NameTooLong",
        PathFault::Dot => "Dot",
    }
}

/// A space and a number.
pub fn number_text(number: u64) -> ArrayString<21>
    ensures { result.bytes ≡ 32 ∷ decimal number }
{
    let mut text = ArrayString::new();
    text.push_str(" ");
    text.push_str(Buffer::new().format(number));
    text
}

// Two numbers, a space before each.
pub(crate) fn numbers_text(first: u64, second: u64) -> ArrayString<42>
    ensures { result.bytes ≡ (32 ∷ decimal first) ++ 32 ∷ decimal second }
{
    let mut text = ArrayString::new();
    text.push_str(number_text(first).as_str());
    text.push_str(number_text(second).as_str());
    text
}

/// The text of a transaction's name.
pub fn txn_text(name: &TxnName) -> Name
    ensures { result ≡ text_of_txn name.now.base name.now.number.number }
{
    let entry = txn_entry(name);
    match entry.as_str().strip_suffix(".txn") {
        Some(text) => Name::new(text),
        None => unreachable!(),
    }
}

// A space and a transaction's name.
pub(crate) fn txn_value_text(name: &TxnName) -> ArrayString<129>
    ensures { result.bytes ≡ txn_value (name.now.base, name.now.number.number) }
{
    let mut text = ArrayString::new();
    text.push_str(" ");
    text.push_str(txn_text(name).as_str());
    text
}

// A revision and an offset, a space before each.
pub(crate) fn at_text(at: RevOffset) -> ArrayString<42>
    ensures { result.bytes ≡ at_values at }
{
    numbers_text(at.rev.get() as u64, at.offset)
}

// A hexadecimal digit.
fn digit(value: u8) -> char
    requires { value < 16 }
    ensures digit { result ≡ slice_index lower_digits value }
    ensures ascii { result < 128 }
{
    char::from(DIGITS[value as usize])
}

// A space, and the bytes in hexadecimal digits.
fn hex_text(bytes: &[u8]) -> ArrayString<41>
    requires { length bytes.now ≤ 20 }
    ensures { result.bytes ≡ 32 ∷ encode_lower bytes.now }
{
    let mut text = ArrayString::new();
    text.push_str(" ");
    for byte in bytes {
        text.push(digit(*byte / 16));
        text.push(digit(*byte % 16));
    }
    text
}

/// A space, and the digits of a digest.
pub fn digest_text<const N: usize>(digest: &HexDigest<N>) -> ArrayString<41>
    requires { N ≤ 20 }
    ensures { result.bytes ≡ 32 ∷ encode_lower digest.now.bytes }
{
    let bytes = digest.bytes;
    hex_text(&bytes)
}

// What is damaged in a representation, with its values, a space before each.
fn rep_what_text(what: &RepWhat) -> ArrayString<96>
    ensures { result.bytes ≡ rep_what_values what.now }
{
    let mut text = ArrayString::new();
    match what {
        RepWhat::Header => text.push_str(" Header"),
        RepWhat::EndRep => text.push_str(" EndRep"),
        RepWhat::Size { kept, found } => {
            text.push_str(" Size");
            text.push_str(numbers_text(*kept, *found).as_str());
        }
        RepWhat::Md5 { kept, found } => {
            text.push_str(" Md5");
            text.push_str(digest_text(kept).as_str());
            text.push_str(digest_text(found).as_str());
        }
        RepWhat::Sha1 { kept, found } => {
            text.push_str(" Sha1");
            text.push_str(digest_text(kept).as_str());
            text.push_str(digest_text(found).as_str());
        }
        RepWhat::Hash => text.push_str(" Hash"),
        RepWhat::BadName => text.push_str(" BadName"),
        RepWhat::EntryValue => text.push_str(" EntryValue"),
    }
    text
}

// That a count of mergeinfo is wrong: the one that is kept, and the one that was found, a space before each.
fn counts_text(kept: u64, found: u64) -> ArrayString<96>
    ensures { result.bytes ≡ codes " Minfo" ++ ((32 ∷ decimal kept) ++ 32 ∷ decimal found) }
{
    let mut text = ArrayString::new();
    text.push_str(" Minfo");
    text.push_str(numbers_text(kept, found).as_str());
    text
}

// What is damaged in a revision, with its values, a space before each.
fn what_text(what: &DamageKind) -> ArrayString<96>
    ensures { result.bytes ≡ what_values what.now }
{
    let word = match what {
        DamageKind::Rep(rep) => return rep_what_text(rep),
        DamageKind::Minfo { kept, found } => return counts_text(*kept, *found),
        DamageKind::Trailer => " Trailer",
        DamageKind::NodeRev => " NodeRev",
        DamageKind::PlaceOrder => " PlaceOrder",
        DamageKind::OtherId => " OtherId",
        DamageKind::EntryKind => " EntryKind",
        DamageKind::Changes => " Changes",
        DamageKind::Props => " Props",
        DamageKind::BadDate => " BadDate",
        DamageKind::Missing => " Missing",
        DamageKind::ChangePath => " ChangePath",
        DamageKind::PredId => " PredId",
        DamageKind::CopyId => " CopyId",
        DamageKind::MinfoRange => " MinfoRange",
    };
    let mut text = ArrayString::new();
    text.push_str(word);
    text
}

// The byte from which on a path's text means none, and the rule that it breaks, a space before each.
pub(crate) fn bad_path_text(bad: &BadPath) -> ArrayString<192>
    ensures { result.bytes ≡ bad_path_values bad.now }
{
    let mut text = ArrayString::new();
    text.push_str(number_text(bad.at as u64).as_str());
    text.push_str(" ");
    text.push_str(why_text(bad.why));
    text
}

// Why the input is no job script.
fn script_why_text(why: Why) -> &'static str
    ensures text { result.now ≡ script_why why }
    ensures short { length result.now ≤ 16 }
{
    match why {
        Why::Word => "Word",
        Why::Number => "Number",
        Why::Path => "Path",
        Why::Name => "Name",
        Why::NotUtf8 => "NotUtf8",
        Why::LongLine => "LongLine",
        Why::NoNewline => "NoNewline",
        Why::Short => "Short",
    }
}

// The line of a script that is refused, and why, a space before each.
pub(crate) fn bad_script_text(bad: &BadScript) -> ArrayString<192>
    ensures { result.bytes ≡ bad_script_values bad.now }
{
    let mut text = ArrayString::new();
    text.push_str(number_text(bad.line).as_str());
    text.push_str(" ");
    text.push_str(script_why_text(bad.why));
    text
}

// The small file that is not in its format, and the byte from which on it isn't, a space before each.
pub(crate) fn small_text(small: &SmallFault) -> ArrayString<192>
    ensures { result.bytes ≡ small_values small.now }
{
    let mut text = ArrayString::new();
    text.push_str(" ");
    text.push_str(small_file_name(&small.file).as_str());
    text.push_str(number_text(small.at as u64).as_str());
    text
}

// Where a revision is damaged, and what is, with its values, a space before each.
pub(crate) fn damage_text(damage: &Damage) -> ArrayString<192>
    ensures { result.bytes ≡ damage_values damage.now }
{
    let mut text = ArrayString::new();
    text.push_str(at_text(damage.at).as_str());
    text.push_str(what_text(&damage.what).as_str());
    text
}
