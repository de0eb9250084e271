// Changed-path data: its items, written again, and where they are refused.
use crate::nodes::{kind_word, put_id};
use crate::small_files::{put_again, put_place};
use fsfs_base::Action;
use fsfs_memory::Transcript;
use fsfs_noderev::{
    ChangeError, ChangeItem, read_changes, read_item, read_revision_changes, write_changes,
};
use std::alloc::{AllocError, Global};

// The item that the text begins with, written as all changed paths.
fn written(alloc: Global, text: &[u8]) -> Result<Option<Vec<u8>>, AllocError> {
    match read_item(alloc, text)? {
        None => Ok(None),
        Some((item, _)) => match item.kind {
            None => Ok(None),
            Some(_) => {
                let bytes = write_changes(alloc, &[item])?;
                Ok(Some(bytes))
            }
        },
    }
}

fn action_word(action: Action) -> &'static str {
    match action {
        Action::Add => "add",
        Action::Modify => "modify",
        Action::Delete => "delete",
        Action::Replace => "replace",
    }
}

fn put_item(out: &mut Transcript, item: &ChangeItem) {
    out.say(action_word(item.action));
    if let Some(kind) = item.kind {
        out.say(" ");
        out.say(kind_word(kind));
    }
    out.tell(" ", &item.path);
    out.say(", ");
    put_id(out, &item.id);
    if item.text_changed {
        out.say(", text");
    }
    if item.props_changed {
        out.say(", properties");
    }
    if let Some(source) = &item.source {
        out.tell(", from r", &source.rev);
        out.tell(" ", &source.path);
    }
}

fn put_items(out: &mut Transcript, items: &[ChangeItem]) {
    out.show(&items.len());
    out.say(" items");
    for item in items {
        out.say(": ");
        put_item(out, item);
    }
}

// Whether the one item is written in the same bytes.
fn put_written(out: &mut Transcript, alloc: Global, bytes: &[u8]) {
    match written(alloc, bytes) {
        Ok(Some(again)) => put_again(out, bytes, Ok(again)),
        Ok(None) => {}
        Err(_) => out.lose(),
    }
}

fn put_read(
    out: &mut Transcript,
    alloc: Global,
    read: Result<Vec<ChangeItem>, ChangeError>,
    bytes: &[u8],
) {
    match read {
        Err(ChangeError::Fault(fault)) => put_place(out, fault.at, bytes),
        Err(_) => out.lose(),
        Ok(items) => {
            put_items(out, &items);
            if items.len() == 1 {
                put_written(out, alloc, bytes);
            }
        }
    }
}

/// The changed paths of a revision.
pub fn put_of_revision(out: &mut Transcript, alloc: Global, bytes: &[u8]) {
    put_read(out, alloc, read_revision_changes(alloc, bytes), bytes);
}

/// The changed paths of a transaction.
pub fn put_of_txn(out: &mut Transcript, alloc: Global, bytes: &[u8]) {
    put_read(out, alloc, read_changes(alloc, bytes), bytes);
}
