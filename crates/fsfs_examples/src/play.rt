// A whole text of examples.
use crate::block::{Block, play_each};
use crate::line::{Each, Line};
use crate::stage::Stage;
use std::alloc::{AllocError, Global};
use std::sync::Wait;
use std::thread::Threads;

/// What is printed of a text of examples.
pub fn transcript_of<T: Threads + Wait + Sync>(
    rt: &T,
    alloc: Global,
    text: &str,
) -> Result<String, AllocError> {
    let lines: Vec<&str> = text.lines().collect(alloc)?;
    let mut stage = Stage::new(alloc);
    let mut begun: Option<(Each, usize)> = None;
    for (at, line) in lines.iter().enumerate() {
        let number = at.saturating_add(1);
        match (Line::read(line), begun) {
            (Ok(Line::Each(each)), None) => begun = Some((each, number)),
            (Ok(Line::End), Some((each, start))) => {
                let lines = lines.get(start..at).unwrap_or(&[]);
                let first = start.saturating_add(1);
                play_each(rt, &mut stage, Block { first, lines }, each)?;
                begun = None;
            }
            (_, Some(_)) => {}
            (_, None) => stage.play(rt, number, line),
        }
    }
    if begun.is_some() {
        stage.out.say("? the last block does not end\n");
    }
    stage.out.finish()
}
