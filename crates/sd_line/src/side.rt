// What lies under the lock of a line.
ghost use Rattle.std.specs.Prelude.{List, ◌≡◌, ◌≢◌, ◌≤◌, [], false, length, IsTrue, Some, IfSome, option_to_list};
ghost use Rattle.sd_base.specs.Limits.{most_lanes};
ghost use Rattle.sd_closes.specs.Pieces.{keyed};
ghost use Rattle.sd_driver.specs.Shelf.{StillLasts};
ghost use Rattle.sd_drive.specs.Shelf.{Kept};
ghost use Rattle.sd_journal.specs.Journal.{placed_of};
ghost use Rattle.sd_line.specs.Operates.{Operates, OwnLast};
ghost use Rattle.sd_ledger.specs.Ledger.{IsAmong};
ghost use Rattle.sd_line.specs.Side.{CloseIs, KeepsSide, MayReady, TellsStand};
ghost use Rattle.sd_line.specs.Tells.{AreApart, IsOfSent, tells_close};
ghost use Rattle.sd_line.specs.Turns.{Turns};
ghost use Rattle.sd_world.specs.Devices.{GoesOn};
ghost use Rattle.sd_world.specs.Reading.{ReadsDrive};

use crate::counts::LaneCounts;
use crate::gate::Gate;
use crate::naming::Naming;
use crate::operating;
use crate::seat::Seat;
use crate::tells::{CloseBook, ToldCloses, ToldToken};
use crate::turning::{self, Turned};
use sd_base::{DriveNo, PoolName, Refusal, SessionKey};
use sd_drive::{Drive, Receipt};
use sd_driver::Driver;
use sd_ledger::Ledger;
use sd_machine::{Event, Reply};
use sd_readback::{ReadEnd, Sink};
use sd_ruled::{DriveSeat, LaneQueue};
use sd_span::Span;
use sd_world::read_drive;
use std::alloc::AllocError;
use std::marker::{Model, PhantomData};
use std::sync::Wait;

/// A drive with its seat at the queue before it. In a contract it is a `SideIs`.
///
/// Its type keeps what `KeepsSide` says: the drive's journal and hand follow the pieces that the
/// seat took; and what was told at closes stands.
#[derive(Drop)]
pub struct DriveSide<D: Driver, N: Naming> {
    no: DriveNo,
    drive: Drive<D>,
    seat: DriveSeat,
    // How many pieces the seat took of each lane.
    counts: LaneCounts,
    told: ToldCloses<D>,
    book: Ledger<ToldCloses<D>>,
    of: PhantomData<N>,
}

impl<D: Driver, N: Naming> Model for DriveSide<D, N> {
    ghost use Rattle.std.specs.Prelude.{◌≡◌};
    ghost use Rattle.sd_line.specs.Side.{SideIs, KeepsSide};

    ghost Value = { SideIs D };

    ghost view = { λ s. record {
      no = s.no;
      drive = s.drive;
      seat = s.seat;
      told = s.told;
      book = s.book;
    } };

    ghost invariant = { λ s. record {
      keeps : KeepsSide (λ d. D.meaning d) N.table N.time
          (record { no = s.no; drive = s.drive; seat = s.seat; told = s.told; book = s.book });
      counted : s.counts ≡ s.seat.taken;
    } };
}

impl<D: Driver, N: Naming> DriveSide<D, N> {
    pub(crate) fn new(no: DriveNo, drive: Drive<D>, seat: DriveSeat, book: CloseBook<D>) -> Self
        requires keeps { KeepsSide (λ d. D.meaning d) N.table N.time
            (record { no = no; drive = drive; seat = seat; told = []; book = book }) }
        requires unused { seat.taken ≡ [] }
        ensures { result ≡ record {
          no = no;
          drive = drive;
          seat = seat;
          told = [];
          book = book;
        } }
    {
        DriveSide {
            no,
            drive,
            seat,
            counts: LaneCounts::new(),
            told: ToldCloses::new(),
            book: book.into_ledger(),
            of: PhantomData,
        }
    }

    /// The number of the drive.
    pub fn no(&self) -> DriveNo
        ensures { result ≡ self.now.no }
    {
        self.no
    }

    pub fn drive(&self) -> &Drive<D>
        ensures { result.now ≡ self.now.drive }
    {
        &self.drive
    }

    /// How many lanes the queue before the drive has.
    pub fn lanes(&self) -> u32
        ensures lanes { result ≡ self.now.seat.lanes }
        ensures most { result ≤ most_lanes }
    {
        self.seat.lanes()
    }

    /// Its drive and its seat, for who has it alone.
    pub fn into_parts(self) -> (Drive<D>, DriveSeat)
        ensures drive { result.0 ≡ self.drive }
        ensures seat { result.1 ≡ self.seat }
        ensures keeps { KeepsSide (λ d. D.meaning d) N.table N.time self }
    {
        let DriveSide {
            no: _,
            drive,
            seat,
            counts: _,
            told: _,
            book: _,
            of: _,
        } = self;
        (drive, seat)
    }

    /// What holds whenever the lock is taken: also that what was told at closes stands; and so, with an honest device, each
    /// synced block ends at or below the stable length of its volume. Does nothing.
    pub fn know(&self)
        ensures side { KeepsSide (λ d. D.meaning d) N.table N.time self.now }
        ensures drive { Kept (D.meaning self.now.drive.device) self.now.drive.volumes
            self.now.drive.loaded self.now.drive.journal }
    {
        self.drive.know();
    }

    /// A turn: takes a piece from the queue if the drive's hand is empty, then places, and syncs
    /// exactly if there was nothing to place or no volume for it. What lasted lasts, at each
    /// moment in between too. If out of memory for the place, the piece stays in the hand.
    pub fn turn_on<R: Wait + Drop, G: Gate>(&mut self, queue: &LaneQueue<R>, gate: &G) -> Turned
        requires { queue.now.table ≡ N.table self.old.no }
        ensures turns { Turns (λ d. D.meaning d) result self.old self.new }
        ensures told { self.new.told ≡ self.old.told }
        ensures lasts { StillLasts (D.meaning self.old.drive.device).shelf
            (D.meaning self.new.drive.device).shelf }
        ensures goes_on { GoesOn (λ _. Unit {0}) (D.meaning self.old.drive.device)
            (D.meaning self.new.drive.device) }
    {
        let took = turning::take(&mut self.drive, &mut self.seat, &mut self.counts, queue);
        let place = turning::place(&mut self.drive, gate);
        let sync = turning::sync(&mut self.drive, turning::is_sync_due(&place));
        Turned { took, place, sync }
    }

    /// Answers a label, an adoption, a mount, an unmount, a seek or a sync of this drive; any other
    /// event, and one of another drive, is a bad command. No desk is asked: a name counts as
    /// claimed if the drive has a volume of it, and a drive that needs a volume and has none
    /// answers `Requested`. The pieces given so far stay. Of the drive's
    /// volumes what lasted lasts, and so do whole blocks of an adopted one.
    pub fn operate_on(&mut self, event: Event) -> Reply
        ensures same { (self.new.no ≡ self.old.no) × (self.new.seat ≡ self.old.seat) }
        ensures told { self.new.told ≡ self.old.told }
        ensures operates { Operates (λ d. D.meaning d) self.old.no event result
            self.old.drive self.new.drive }
        ensures own_last { OwnLast self.old.drive (D.meaning self.old.drive.device).shelf
            (D.meaning self.new.drive.device).shelf }
        ensures goes_on { GoesOn (λ _. Unit {0}) (D.meaning self.old.drive.device)
            (D.meaning self.new.drive.device) }
    {
        operating::operate(&mut self.drive, self.no, &event)
    }

    /// What a label or an adoption of this drive is answered if there is no memory for the volume that it brings: what is
    /// refused without the device, else out of memory. None at any other event.
    pub fn refusal_without_room(&self, event: &Event) -> Option<Reply>
        ensures { IfSome result (λ reply. Operates (λ d. D.meaning d) self.now.no event.now reply
            self.now.drive self.now.drive) }
    {
        operating::refusal_without_room(&self.drive, self.no, event)
    }

    /// Notes a session that begins: its pool is the drive's from then on, and there is room for its next placement. If out
    /// of memory for that room, its first place makes it.
    pub fn serve(&mut self, key: SessionKey, pool: &PoolName)
        ensures serves { self.new ≡ record self.old {
          drive = record self.old.drive {
            pool = Some pool.now;
            ready = self.new.drive.ready;
          };
        } }
        ensures room { MayReady key self.old.drive.ready self.new.drive.ready }
    {
        ready(&mut self.drive, key);
        self.drive.set_pool(pool);
    }

    /// Reads a session back from its spans, as the drive does. Nothing changes but its device, of which no volume does.
    pub fn read<S: Sink>(
        &mut self,
        key: SessionKey,
        spans: &[Span],
        sink: &mut S,
    ) -> Result<ReadEnd, Refusal>
        ensures same { (self.new.no ≡ self.old.no) × (self.new.seat ≡ self.old.seat) }
        ensures told { self.new.told ≡ self.old.told }
        ensures reads { ReadsDrive (λ d. D.meaning d) key spans.now (S.got sink.old) (S.got sink.new)
            result self.old.drive self.new.drive }
    {
        read_drive(&mut self.drive, key, spans, sink)
    }

    /// Shows that each close that was told so far was told.
    pub fn show(&mut self) -> ToldToken<D, N>
        ensures same { self.new ≡ self.old }
        ensures token { result ≡ record {
          no = self.old.no;
          shown = record { id = self.old.book.id; shown = self.old.book.entries };
        } }
    {
        ToldToken::new(self.no, self.book.show())
    }

    /// What a token shows was told here, and it stands. Does nothing.
    pub fn stands(&mut self, token: ToldToken<D, N>) -> ToldToken<D, N>
        requires { token.no ≡ self.old.no }
        ensures same { (self.new ≡ self.old) × (result ≡ token) }
        ensures stands { (told : List (CloseIs _)) → IsAmong told token.shown.shown
            → TellsStand (λ d. D.meaning d) self.old.drive.device told }
    {
        let no = self.no;
        ToldToken::new(no, self.book.know(token.into_token()))
    }

    // Tells a close by this receipt, unless the drive and the lane's seat are apart.
    pub(crate) fn tell<R: Wait + Drop>(
        &mut self,
        queue: &LaneQueue<R>,
        seat: &mut Seat<N>,
        receipt: &Receipt,
    ) -> bool
        requires queue { queue.now.table ≡ N.table self.old.no }
        requires no { seat.old.no ≡ self.old.no }
        requires own { IsOfSent self.old.drive.journal seat.old.seat.sent receipt.now }
        ensures seat { seat.new ≡ seat.old }
        ensures told { IsTrue result
            → self.new ≡ tells_close self.old seat.old.seat.sent receipt.now }
        ensures own { IsTrue result → length (keyed receipt.now.key seat.old.seat.sent)
            ≡ placed_of receipt.now.key self.old.drive.journal }
        ensures same { result ≡ false → self.new ≡ self.old }
        ensures apart { result ≡ false → AreApart self.old seat.old receipt.now.key }
    {
        self.drive.know();
        if !seat.is_taken(queue, &mut self.seat, &self.counts)
            || is_in_hand(&self.drive, receipt.key())
        {
            return false;
        }
        self.told.add(&self.drive, seat.lane_seat(), receipt);
        self.book.write(&self.told);
        true
    }
}

// Whether the drive has a piece of the session in its hand.
fn is_in_hand<D: Driver>(drive: &Drive<D>, key: SessionKey) -> bool
    ensures some { IsTrue result → keyed key (option_to_list drive.now.hand) ≢ [] }
    ensures none { result ≡ false → keyed key (option_to_list drive.now.hand) ≡ [] }
{
    match drive.hand() {
        Some(piece) => key == piece.key,
        None => false,
    }
}

// Makes room for a session's next placement, if there is memory.
fn ready<D: Driver>(drive: &mut Drive<D>, key: SessionKey)
    ensures same { drive.new ≡ record drive.old { ready = drive.new.ready } }
    ensures room { MayReady key drive.old.ready drive.new.ready }
{
    match drive.ready(key) {
        Ok(()) | Err(AllocError) => {}
    }
}
