// A piece comes from the queue into a drive's hand.
ghost use Rattle.std.specs.Prelude.{ℕ};
ghost use Rattle.sd_desk.specs.Desk.{DeskView};
ghost use Rattle.sd_machine.specs.declared.event.Event.TheVariants.{Take};
ghost use Rattle.sd_events.specs.AtStations.{MovesHere, FirstHasTicket};

use sd_base::Ticket;
use sd_drive::Drive;
use sd_driver::Driver;
use sd_lane::Lanes;
use sd_machine::Reply;

/// Takes the first piece of the drive's queue into its hand, if that is empty.
pub(crate) fn take<D: Driver, Q: Lanes>(drive: &mut Drive<D>, queue: &mut Q) -> Reply
    requires first { FirstHasTicket (Q.held queue.old) }
    ensures { (own : ℕ) (desk : DeskView) → MovesHere (λ d. D.meaning d) own (Take own)
        drive.old (record {
          lanes = Q.lanes queue.old;
          capacity = Q.capacity queue.old;
          held = Q.held queue.old;
        }) desk result
        drive.new (record {
          lanes = Q.lanes queue.new;
          capacity = Q.capacity queue.new;
          held = Q.held queue.new;
        }) desk }
{
    let None = drive.hand() else {
        return Reply::HandFull;
    };
    let Some(piece) = queue.try_take() else {
        return Reply::Idle;
    };
    let seq = piece.seq;
    let Some(ticket) = Ticket::new(piece.key.id) else {
        return Reply::Idle;
    };
    drive.give(piece);
    Reply::InHand { ticket, seq }
}
