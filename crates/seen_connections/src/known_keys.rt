//! The keys of a capture's connections, by their tokens.

ghost use Rattle.std.specs.Prelude.{◌≡◌, ℕ, nat_eq, find, List, [], ◌∷◌, ◌++◌, OnOk, OnErr, if◌then◌else◌, Some, None};
ghost use Rattle.std.specs.Option.{option_or};
ghost use Rattle.std.specs.HashMap.{get, IsUnchanged};
ghost use Rattle.seen_connections.specs.Keys.{has_token, belongs_by};

use crate::flow::{Belongs, Opening};
use sides::Side;
use std::alloc::{AllocError, Global};
use std::collections::HashMap;
use std::marker::Model;

/// A key that became known: its token, its connection, and whose it is.
#[derive(Clone, Copy)]
pub struct KnownKey {
    pub token: u32,
    pub connection: usize,
    pub side: Side,
}

/// The keys, in the order in which they became known.
#[derive(Drop)]
pub struct KnownKeys {
    known: Vec<KnownKey>,
    // Of each token the key that was known first.
    first: HashMap<u32, KnownKey>,
}

impl Model for KnownKeys {
    ghost use Rattle.std.specs.Prelude.{◌≡◌, ℕ, List, find, nat_eq};
    ghost use Rattle.std.specs.HashMap.{get};
    ghost use Rattle.seen_connections.specs.declared.known_keys.KnownKey.{KnownKey};
    ghost use Rattle.seen_connections.specs.Keys.{has_token};

    ghost Value = { List KnownKey };

    ghost view = { λ s. s.known.items };

    ghost invariant = { λ s. (token : ℕ) → get nat_eq s.first token ≡ find (has_token token) s.known.items };
}

impl KnownKeys {
    /// No key.
    pub fn new(alloc: Global) -> Self
        ensures { result ≡ [] }
    {
        KnownKeys {
            known: Vec::new(alloc),
            first: HashMap::new(alloc),
        }
    }

    /// The key with a token that was known first.
    pub fn named(&self, token: u32) -> Option<KnownKey>
        ensures { result ≡ find (has_token token) self.now }
    {
        self.first.get(&token).copied()
    }

    /// The connection of a flow whose SYN asks for this: of a join the one whose key its token names.
    pub fn belongs(&self, opening: &Opening) -> Option<Belongs>
        ensures { result ≡ belongs_by opening.now self.now }
    {
        match *opening {
            Opening::Join { token, .. } => {
                let key = self.named(token)?;
                Some(Belongs {
                    connection: key.connection,
                    opener: key.side.peer(),
                })
            }
            Opening::Capable { .. } => None,
        }
    }

    /// A key becomes known.
    ///
    /// # Errors
    ///
    /// Where memory is wanting, and then the keys stay.
    pub fn learn(&mut self, key: KnownKey) -> Result<(), AllocError>
        ensures ok { OnOk result (self.new ≡ self.old ++ key ∷ []) }
        ensures err { OnErr result (self.new ≡ self.old) }
    {
        self.known.reserve(1)?;
        keep_first(&mut self.first, key)?;
        match self.known.push(key) {
            Ok(()) => Ok(()),
            Err(_) => unreachable!(),
        }
    }
}

// Of a token the key stays that had it first.
fn keep_first(first: &mut HashMap<u32, KnownKey>, key: KnownKey) -> Result<(), AllocError>
    ensures ok { OnOk result ((token : ℕ) → get nat_eq first.new token ≡
        option_or (get nat_eq first.old token) (if has_token token key then Some key else None)) }
    ensures err { OnErr result (IsUnchanged first.old first.new) }
{
    if first.contains_key(&key.token) {
        return Ok(());
    }
    first.insert(key.token, key)?;
    Ok(())
}
