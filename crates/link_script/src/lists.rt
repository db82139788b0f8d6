//! The lists of a script.

ghost use Rattle.std.specs.Prelude.{◌≡◌, ◌∷◌, [], ◌++◌, OnOk, OnErr};

use crate::script::{PathLine, ScriptLine};
use std::alloc::AllocError;
use std::marker::Model;

/// The paths of a script, path 0 first.
#[derive(Drop)]
pub struct PathLines {
    lines: Vec<PathLine>,
}

impl Model for PathLines {
    ghost use Rattle.std.specs.Prelude.{List};
    ghost use Rattle.link_script.specs.declared.script.PathLine.{PathLine};

    ghost Value = { List PathLine };

    ghost view = { λ p. p.lines.items };
}

/// Takes no memory.
impl From<Vec<PathLine>> for PathLines {
    ghost from_gives = { λ lines list. list ≡ lines.items };

    fn from(lines: Vec<PathLine>) -> Self {
        PathLines { lines }
    }
}

impl PathLines {
    /// Adds a line at the end.
    pub fn push(&mut self, line: PathLine) -> Result<(), AllocError>
        ensures ok { OnOk result (self.new ≡ self.old ++ line ∷ []) }
        ensures err { OnErr result (self.new ≡ self.old) }
    {
        self.lines.push(line)?;
        Ok(())
    }

    /// Gives the vector back.
    pub fn into_vec(self) -> Vec<PathLine>
        ensures { result.items ≡ self }
    {
        self.lines
    }

    /// Lends the list, and takes no memory.
    pub fn as_slice(&self) -> &[PathLine]
        ensures { result.now ≡ self.now }
    {
        self.lines.as_slice()
    }
}

/// What a script lets happen, in the order of its text.
#[derive(Drop)]
pub struct ScriptLines {
    lines: Vec<ScriptLine>,
}

impl Model for ScriptLines {
    ghost use Rattle.std.specs.Prelude.{List};
    ghost use Rattle.link_script.specs.declared.script.ScriptLine.{ScriptLine};

    ghost Value = { List ScriptLine };

    ghost view = { λ p. p.lines.items };
}

/// Takes no memory.
impl From<Vec<ScriptLine>> for ScriptLines {
    ghost from_gives = { λ lines list. list ≡ lines.items };

    fn from(lines: Vec<ScriptLine>) -> Self {
        ScriptLines { lines }
    }
}

impl ScriptLines {
    /// Adds a line at the end.
    pub fn push(&mut self, line: ScriptLine) -> Result<(), AllocError>
        ensures ok { OnOk result (self.new ≡ self.old ++ line ∷ []) }
        ensures err { OnErr result (self.new ≡ self.old) }
    {
        self.lines.push(line)?;
        Ok(())
    }

    /// Gives the vector back.
    pub fn into_vec(self) -> Vec<ScriptLine>
        ensures { result.items ≡ self }
    {
        self.lines
    }

    /// Lends the list, and takes no memory.
    pub fn as_slice(&self) -> &[ScriptLine]
        ensures { result.now ≡ self.now }
    {
        self.lines.as_slice()
    }
}
