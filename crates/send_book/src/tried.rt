ghost use Rattle.std.specs.Prelude.{◌≡◌, ◌<◌, ◌↔◌, IsTrue};
ghost use Rattle.send_book.specs.Tried.{no_paths, has_none, insert, contains};

use std::marker::Model;

/// Some of the paths 0 to 15. Contracts see a truth value for each path, from path 0 on.
#[derive(Clone, Copy)]
pub struct Tried {
    paths: [bool; 16],
}

impl Model for Tried {
    ghost use Rattle.std.specs.Prelude.{Bool, List};

    ghost Value = { List Bool };

    ghost view = { λ tried. tried.paths };

    ghost inverse = { λ paths. record { paths = paths } };
}

impl Tried {
    /// No path.
    pub fn new() -> Self
        ensures { result ≡ no_paths }
    {
        Tried { paths: [false; 16] }
    }

    /// Whether the path is one of these.
    pub fn contains(&self, path: u8) -> bool
        requires { path < 16 }
        ensures { result ≡ contains path self.now }
    {
        self.paths[usize::from(path)]
    }

    /// Whether none of the paths is one of these.
    pub fn is_empty(&self) -> bool
        ensures { result ≡ has_none self.now }
    {
        for one in &self.paths {
            if *one {
                return false;
            }
        }
        true
    }

    /// Makes the path one of these.
    pub fn insert(&mut self, path: u8)
        requires { path < 16 }
        ensures { self.new ≡ insert path self.old }
    {
        self.paths[usize::from(path)] = true;
    }
}

impl PartialEq for Tried {
    ghost use Rattle.std.specs.Cmp.Lexicographic.{pointwise, lists_per};
    ghost use Rattle.std.specs.Cmp.Rules.{comparing};
    ghost use Rattle.std.proofs.Common.{rules};

    ghost eq = { pointwise ⟦<bool as PartialEq>⟧.eq };

    ghost laws = { lists_per (Prim.search (comparing, rules)) };

    #[tactic(auto, using(crate::proofs::PathSets::paths_decides))]
    fn eq(&self, other: &Self) -> bool
        ensures value { result ≡ pointwise ⟦<bool as PartialEq>⟧.eq self.now other.now }
        ensures exact { IsTrue result ↔ (self.now ≡ other.now) }
    {
        self.paths == other.paths
    }
}

impl Eq for Tried {
    ghost use Rattle.std.specs.Cmp.Lexicographic.{lists_equiv};
    ghost use Rattle.std.specs.Cmp.Rules.{comparing};
    ghost use Rattle.std.proofs.Common.{rules};

    ghost laws = { lists_equiv (Prim.search (comparing, rules)) };
}
