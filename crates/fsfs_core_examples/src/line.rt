// The lines of a text of runs.
use fsfs_memory::cut;

/// What a block is for.
#[derive(Clone, Copy)]
pub enum Block<'a> {
    /// Steps that have this name from here on.
    Steps(&'a str),
    /// After each of the steps of this name the lines of the block are played, each time in a run of its own.
    After(&'a str),
    /// The same, where each call of the disk in the steps of this name fails, in each way.
    Faults(&'a str),
}

/// A line.
#[derive(Clone, Copy)]
pub enum Line<'a> {
    Nothing,
    /// Begins a run, with a new repository.
    Run(&'a str),
    Begin(Block<'a>),
    End,
    /// Does all steps of this name.
    Do(&'a str),
    /// Prints the history.
    History,
    /// Prints where the lock is stuck.
    Stuck,
    /// Prints what a revision says of a path: when it changed last, and whether in this revision.
    Node(&'a str),
    /// Prints the history of a path.
    Walk(&'a str),
    /// A step, whose answer is printed.
    Step(&'a str),
}

impl<'a> Line<'a> {
    pub fn read(line: &'a str) -> Line<'a> {
        if line.is_empty() || line.starts_with('#') {
            return Line::Nothing;
        }
        let (word, rest) = cut(line);
        match word {
            "==" => Line::Run(rest),
            "steps" => Line::Begin(Block::Steps(rest)),
            "after" => Line::Begin(Block::After(rest)),
            "faults" => Line::Begin(Block::Faults(rest)),
            "end" => Line::End,
            "do" => Line::Do(rest),
            "history" => Line::History,
            "stuck" => Line::Stuck,
            "node" => Line::Node(rest),
            "walk" => Line::Walk(rest),
            _ => Line::Step(line),
        }
    }
}
