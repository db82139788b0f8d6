//! What an end keeps of the peer's stream (RFC 8684, section 3.3.1).

ghost use Rattle.std.specs.Prelude.{◌≡◌, ◌≤◌, ◌+◌, ◌^◌, ◌==◌, if◌then◌else◌, is_some, None, IfSome};
ghost use Rattle.path_store.specs.Counts.{one_more};

use crate::counts::one_more;
use crate::mapped_data_fin::{MappedDataFin, data_fin_behind};
use dss_mapping::Mappings;
use seq_units::Pos;
use std::alloc::Global;
use std::marker::Model;

/// What an end keeps of the peer's stream. Windows are at most 2^20 octets, and places at most 2^62 + 2^20.
#[derive(Drop)]
pub struct Receiving {
    /// What is to be acknowledged, as the book told it last.
    next: u64,
    /// How much more is taken, as the book told it last.
    window: u32,
    /// The edge of the window that the last segment told.
    told_edge: u64,
    /// Which place each position has.
    pub mappings: Mappings,
    /// How often, up to three times, the byte at `unmapped_at` came as the next one and without a mapping.
    unmapped: u64,
    /// The position at which such a byte came last.
    unmapped_at: Pos,
    /// The peer's FIN was told as the end of its stream.
    pub fin_told: bool,
    /// A DATA_FIN behind bytes that the edge hasn't passed yet. Its place is at most 2^62.
    mapped_data_fin: Option<MappedDataFin>,
}

impl Model for Receiving {
    ghost use Rattle.std.specs.Prelude.{◌≤◌, ◌+◌, ◌^◌, IfSome};
    ghost use Rattle.std.specs.Coded.{codes};
    ghost use Rattle.dss_mapping.specs.Mappings.{mappings_code};
    ghost use Rattle.path_store.specs.Receiving.{ReceivingStore};

    ghost Value = { ReceivingStore };

    ghost coded = { Prim.hlevel (codes, mappings_code) };

    ghost view = { λ v. record {
      receiving = record {
        next = v.next;
        window = v.window;
        told_edge = v.told_edge;
        mappings = v.mappings.mappings;
        unmapped = v.unmapped;
        unmapped_at = v.unmapped_at;
        fin_told = v.fin_told;
        mapped_data_fin = v.mapped_data_fin;
      };
      ready = v.mappings.ready;
    } };

    ghost invariant = { λ v. (v.next ≤ 2 ^ 62 + 2 ^ 20) × (v.window ≤ 2 ^ 20) ×
        (v.told_edge ≤ 2 ^ 62 + 2 ^ 21)
        × IfSome v.mapped_data_fin (λ fin. fin.place ≤ 2 ^ 62) };
}

impl Receiving {
    ghost use Rattle.dss_mapping.specs.Learning.{first_held, after_learn_held};
    ghost use Rattle.path_store.specs.Receiving.{no_receiving};
    ghost use Rattle.path_store.specs.Receiving.{data_fin_behind, data_fin_reached};

    /// Nothing came and nothing was told. Takes no memory.
    pub fn new(alloc: Global) -> Self
        ensures { result.receiving ≡ no_receiving }
    {
        Receiving {
            next: 0,
            window: 0,
            told_edge: 0,
            mappings: Mappings::new(alloc),
            unmapped: 0,
            unmapped_at: 0,
            fin_told: false,
            mapped_data_fin: None,
        }
    }

    /// What is to be acknowledged.
    pub fn next(&self) -> u64
        ensures value { result ≡ self.now.receiving.next }
        ensures bound { result ≤ 2 ^ 62 + 2 ^ 20 }
    {
        self.next
    }

    /// How much more is taken, in octets.
    pub fn window(&self) -> u32
        ensures value { result ≡ self.now.receiving.window }
        ensures bound { result ≤ 2 ^ 20 }
    {
        self.window
    }

    /// The edge of the window that the last segment told.
    pub fn told_edge(&self) -> u64
        ensures value { result ≡ self.now.receiving.told_edge }
        ensures bound { result ≤ 2 ^ 62 + 2 ^ 21 }
    {
        self.told_edge
    }

    /// How often the byte at this position would have been the next one without a mapping, this time among them.
    pub fn times_unmapped(&self, edge: Pos) -> u64
        ensures { result ≡
            (if self.now.receiving.unmapped_at == edge then one_more self.now.receiving.unmapped
            else 1) }
    {
        if self.unmapped_at == edge {
            one_more(self.unmapped)
        } else {
            1
        }
    }

    /// The byte at this position was the next one without a mapping so often, three times at most.
    pub fn note_unmapped(&mut self, times: u64, edge: Pos)
        ensures { self.new ≡
            record self.old
            { receiving = record self.old.receiving { unmapped = times; unmapped_at = edge } } }
    {
        self.unmapped = times;
        self.unmapped_at = edge;
    }

    /// The first mapping that is held is learned; a DATA_FIN behind its bytes waits for the edge. Takes no memory.
    pub fn learn_held(&mut self)
        ensures { self.new.receiving ≡
            record self.old.receiving {
              mappings = after_learn_held self.old.receiving.mappings;
              mapped_data_fin =
                  data_fin_behind (first_held self.old.receiving.mappings)
                  self.old.receiving.mapped_data_fin;
            } }
    {
        self.mapped_data_fin = data_fin_behind(self.mappings.first_held(), self.mapped_data_fin);
        self.mappings.learn_held();
    }

    /// The DATA_FIN behind bytes whose end this edge reached. It waits no more.
    pub fn take_reached(&mut self, edge: Pos) -> Option<u64>
        ensures value { result ≡ data_fin_reached self.old.receiving.mapped_data_fin edge }
        ensures after { self.new ≡
            record self.old {
              receiving = record self.old.receiving {
                mapped_data_fin =
                    (if is_some (data_fin_reached self.old.receiving.mapped_data_fin edge) then None
                    else
                    self.old.receiving.mapped_data_fin);
              };
            } }
        ensures bound { IfSome result (λ place. place ≤ 2 ^ 62) }
    {
        match self.mapped_data_fin {
            Some(fin) if fin.position <= edge => {
                self.mapped_data_fin = None;
                Some(fin.place)
            }
            _ => None,
        }
    }

    /// A segment told this edge.
    pub fn tell_edge(&mut self, edge: u64)
        requires { edge ≤ 2 ^ 62 + 2 ^ 21 }
        ensures { self.new ≡
            record self.old { receiving = record self.old.receiving { told_edge = edge } } }
    {
        self.told_edge = edge;
    }

    /// The book told what is to be acknowledged, and how much more is taken.
    pub fn tell_window(&mut self, next: u64, window: u32)
        requires next { next ≤ 2 ^ 62 + 2 ^ 20 }
        requires window { window ≤ 2 ^ 20 }
        ensures { self.new ≡
            record self.old
            { receiving = record self.old.receiving { next = next; window = window } } }
    {
        self.next = next;
        self.window = window;
    }
}
