ghost use Rattle.std.specs.Prelude.{◌≡◌};
ghost use Rattle.fsfs_cli.specs.Commands.{tool_name};

/// Which program runs.
#[derive(Clone, Copy)]
pub enum Tool {
    Admin,
    Look,
    Jobs,
}

impl Tool {
    /// The program's name, with which its line about a fault begins.
    pub fn name(self) -> &'static str
        ensures { result.now ≡ tool_name self }
    {
        match self {
            Tool::Admin => "svnadmin",
            Tool::Look => "svnlook",
            Tool::Jobs => "svnjobs",
        }
    }
}
