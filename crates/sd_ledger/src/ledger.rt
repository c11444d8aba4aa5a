// A ledger and its tokens.
ghost use Rattle.std.specs.Prelude.{◌≡◌, [], ◌∷◌, ◌++◌, IfOk};
ghost use Rattle.sd_ledger.specs.Ledger.{AreAmong};

use crate::known::{Grows, Hands, Known, Looks, Shows, Takes, Writes};
use atomic_table::{Seat, Table};
use std::alloc::{AllocError, Global};
use std::marker::Model;

/// A list that only grows, of which nothing is held. In a contract it is a `LedgerIs`.
#[derive(Drop)]
pub struct Ledger<E: Drop> {
    table: Table<E, Known<E>, (), Grows, Global>,
    seat: Seat<E, Known<E>>,
}

impl<E: Drop> Model for Ledger<E> {
    ghost use Rattle.std.specs.Prelude.{◌≡◌, []};
    ghost use Rattle.sd_ledger.specs.Ledger.{LedgerIs};

    ghost Value = { LedgerIs E };

    ghost view = { λ l. record { id = l.seat.table_id; entries = l.seat.me.0.written } };

    ghost invariant = { λ l. record {
      here : l.seat.table_id ≡ l.table.shared.table_id;
      words : l.table.shared.table_id.words ≡ 1;
      first : l.seat.id ≡ 0;
      none : l.seat.me.1 ≡ [];
      idle : l.seat.me.0.shown ≡ [];
    } };
}

/// Shows of entries of a ledger that they are in it. It has no bytes. In a contract it is a `TokenIs`.
#[derive(Drop)]
pub struct Token<E: Drop> {
    seat: Seat<E, Known<E>>,
}

impl<E: Drop> Model for Token<E> {
    ghost use Rattle.std.specs.Prelude.{◌≡◌, []};
    ghost use Rattle.sd_ledger.specs.Ledger.{TokenIs};

    ghost Value = { TokenIs E };

    ghost view = { λ t. record { id = t.seat.table_id; shown = t.seat.me.0.shown } };

    ghost invariant = { λ t. record {
      none : t.seat.me.1 ≡ [];
    } };
}

impl<E: Drop> Ledger<E> {
    /// A ledger without entries.
    pub fn new(alloc: Global) -> Result<Self, AllocError>
        ensures { IfOk result (λ ledger. ledger.entries ≡ []) }
    {
        let (table, seat) = Table::of_words(alloc, &[0], &())?;
        Ok(Ledger { table, seat })
    }

    /// Writes an entry more.
    pub fn write(&mut self, entry: &E)
        ensures { self.new ≡ record self.old { entries = self.old.entries ++ entry.now ∷ [] } }
    {
        let table = &self.table;
        let shared = &table.shared;
        shared.compare_exchange_with::<Writes>(&mut self.seat, 0, 0, 0, entry);
    }

    /// A token that shows all entries that were written.
    pub fn show(&mut self) -> Token<E>
        ensures same { self.new ≡ self.old }
        ensures token { result ≡ record { id = self.old.id; shown = self.old.entries } }
    {
        let table = &self.table;
        let shared = &table.shared;
        let seat = shared.split_seat::<Shows>(&mut self.seat);
        Token { seat }
    }

    /// What a token of this ledger shows is among its entries. Does nothing.
    pub fn know(&mut self, token: Token<E>) -> Token<E>
        requires { token.id ≡ self.old.id }
        ensures same { (self.new ≡ self.old) × (result ≡ token) }
        ensures among { AreAmong token.shown self.old.entries }
    {
        let Token { seat } = token;
        let table = &self.table;
        let shared = &table.shared;
        shared.join_seat::<Takes>(&mut self.seat, seat);
        shared.load::<Looks>(&mut self.seat, 0);
        let seat = shared.split_seat::<Hands>(&mut self.seat);
        Token { seat }
    }
}
