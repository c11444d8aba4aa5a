// What a seat of a ledger's table knows, and the rule of it.
use atomic_table::{Join, Play, Split, TableRule};
use http_server::Log;
use std::marker::Model;

/// What a seat knows: the entries that were written, if it is the ledger's; and those that it shows. No value of it is made.
pub struct Known<E> {
    written: Log<E, ()>,
    shown: Log<E, ()>,
}

impl<E> Model for Known<E> {
    ghost use Rattle.sd_ledger.specs.Ledger.{KnownIs, firsts};

    ghost Value = { KnownIs E };

    ghost view = { λ k. record { written = firsts k.written.items; shown = firsts k.shown.items } };
}

// What any seat shows is written.
pub(crate) struct Grows;

impl<E> TableRule<E, Known<E>, ()> for Grows {
    ghost use Rattle.sd_ledger.specs.Ledger.{AreWritten, nothing};

    ghost holds = { λ _ s. AreWritten s.views };

    ghost first = { λ _. nothing };
}

// An entry more is written.
pub(crate) struct Writes;

impl<E> Play<E, Known<E>> for Writes {
    ghost use Rattle.std.specs.Prelude.{◌≡◌, [], ◌∷◌, ◌++◌};
    ghost use mathlib.Core.Option.{some};

    ghost then = { λ step me _ after. (x : E) → step.said ≡ some x
        → after ≡ (record { written = me.0.written ++ x ∷ []; shown = me.0.shown }, me.1) };
}

// What the seat shows is among what is written, as it knows itself.
pub(crate) struct Looks;

impl<E> Play<E, Known<E>> for Looks {
    ghost use Rattle.std.specs.Prelude.{◌≡◌};
    ghost use Rattle.sd_ledger.specs.Ledger.{AreAmong};

    ghost then = { λ _ me _ after. (after ≡ me) × AreAmong me.0.shown me.0.written };
}

// All that is written is shown by another seat.
pub(crate) struct Shows;

impl<E> Split<Known<E>> for Shows {
    ghost use Rattle.std.specs.Prelude.{[]};

    ghost left = { λ v. v };

    ghost right = { λ v. record { written = []; shown = v.written } };
}

// What is shown goes to another seat.
pub(crate) struct Hands;

impl<E> Split<Known<E>> for Hands {
    ghost use Rattle.std.specs.Prelude.{[]};

    ghost left = { λ v. record { written = v.written; shown = [] } };

    ghost right = { λ v. record { written = []; shown = v.shown } };
}

// And comes back.
pub(crate) struct Takes;

impl<E> Join<Known<E>> for Takes {
    ghost use Rattle.sd_ledger.specs.Ledger.{nothing};

    ghost both = { λ v w. record { written = v.written; shown = w.shown } };

    ghost spent = { nothing };
}
