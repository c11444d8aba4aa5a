// The closes that were told at a drive, and the ledger of them.
ghost use Rattle.std.specs.Prelude.{◌≡◌, ◌++◌, ◌∷◌, [], IfOk};
ghost use Rattle.sd_line.specs.Side.{book_of};

use crate::naming::Naming;
use http_server::Log;
use sd_base::DriveNo;
use sd_drive::{Drive, Receipt};
use sd_driver::Driver;
use sd_ledger::{Ledger, Token};
use sd_ruled::LaneSeat;
use std::alloc::{AllocError, Global};
use std::marker::{Model, PhantomData};

// The closes that were told at a drive, of which nothing is held. In a contract it is a list of `CloseIs`.
#[derive(Drop)]
pub struct ToldCloses<D: Driver> {
    told: Log<Drive<D>, Log<LaneSeat, Receipt>>,
}

impl<D: Driver> Model for ToldCloses<D> {
    ghost use Rattle.std.specs.Prelude.{List, map};
    ghost use Rattle.sd_line.specs.Side.{CloseIs, closes_of};

    ghost Value = { List (CloseIs D) };

    ghost view = { λ c. closes_of (map (λ i. (i.0, i.1.items)) c.told.items) };
}

impl<D: Driver> ToldCloses<D> {
    // None was told.
    pub(crate) fn new() -> Self
        ensures { result ≡ [] }
    {
        ToldCloses { told: Log::new() }
    }

    // Tells one more: with the drive as it is, all that the lane sent, and the receipt.
    pub(crate) fn add(&mut self, drive: &Drive<D>, seat: &LaneSeat, receipt: &Receipt)
        ensures { self.new ≡ self.old ++ record {
          drive = drive.now;
          sent = seat.now.sent;
          receipt = receipt.now;
        } ∷ [] }
    {
        let close = Log::new().and(seat, receipt);
        self.told = self.told.and(drive, &close);
    }
}

/// The ledger of the closes at a drive of which no line is made yet. Nothing was told. In a contract it is a `LedgerIs`.
#[derive(Drop)]
pub struct CloseBook<D: Driver> {
    ledger: Ledger<ToldCloses<D>>,
}

impl<D: Driver> Model for CloseBook<D> {
    ghost use Rattle.std.specs.Prelude.{◌≡◌, List, []};
    ghost use Rattle.sd_ledger.specs.Ledger.{LedgerIs};
    ghost use Rattle.sd_line.specs.Side.{CloseIs};

    ghost Value = { LedgerIs (List (CloseIs D)) };

    ghost view = { λ b. b.ledger };

    ghost invariant = { λ b. b.ledger.entries ≡ [] };
}

impl<D: Driver> CloseBook<D> {
    /// An empty one.
    pub fn new(alloc: Global) -> Result<Self, AllocError>
        ensures { IfOk result (λ book. book.entries ≡ []) }
    {
        Ok(CloseBook {
            ledger: Ledger::new(alloc)?,
        })
    }

    pub(crate) fn into_ledger(self) -> Ledger<ToldCloses<D>>
        ensures { result ≡ self }
    {
        self.ledger
    }
}

/// Shows that closes were told at the drive of a line. It has no bytes but the drive's number. In a contract it is a `ToldTokenIs`.
#[derive(Drop)]
pub struct ToldToken<D: Driver, N: Naming> {
    no: DriveNo,
    token: Token<ToldCloses<D>>,
    of: PhantomData<N>,
}

impl<D: Driver, N: Naming> Model for ToldToken<D, N> {
    ghost use Rattle.std.specs.Prelude.{◌≡◌};
    ghost use Rattle.sd_line.specs.Side.{ToldTokenIs, book_of};

    ghost Value = { ToldTokenIs D };

    ghost view = { λ t. record { no = t.no; shown = t.token } };

    ghost invariant = { λ t. t.token.id ≡ N.table (book_of t.no) };
}

impl<D: Driver, N: Naming> ToldToken<D, N> {
    pub(crate) fn new(no: DriveNo, token: Token<ToldCloses<D>>) -> Self
        requires { token.id ≡ N.table (book_of no) }
        ensures { result ≡ record { no = no; shown = token } }
    {
        ToldToken {
            no,
            token,
            of: PhantomData,
        }
    }

    /// The number of the drive at which the closes were told.
    pub fn no(&self) -> DriveNo
        ensures { result ≡ self.now.no }
    {
        self.no
    }

    pub(crate) fn into_token(self) -> Token<ToldCloses<D>>
        ensures token { result ≡ self.shown }
        ensures here { result.id ≡ N.table (book_of self.no) }
    {
        self.token
    }
}
