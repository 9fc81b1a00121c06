// What was put, emitted and taken, in numbers.
ghost use Rattle.std.specs.Prelude.{◌≡◌, ◌<◌, true, false, Some, List, length, slice_get};
ghost use Rattle.ic_law.specs.declared.history.Entry.{Entry};
ghost use Rattle.ic_timed_sender.specs.Timed.{TimedState};
ghost use Rattle.ic_receiver.specs.Receiving.{Receiving};
ghost use Rattle.ic_hub.specs.Counting.{IsCountOfSender, IsCountOfReceiver, CountsFound, TellsCounts};
ghost use Rattle.ic_hub.specs.Standing.{Stands};

use crate::counts::Counts;
use crate::hub::Hub;
use crate::query::Query;
use ic_base::ConnKey;
use ic_receiver::Receiver;
use ic_timed_sender::TimedSender;

/// What a sender counts.
fn of_sender(sender: &TimedSender) -> Counts
    ensures { IsCountOfSender sender.now result }
{
    Counts {
        rows: sender.rows(),
        packets: sender.sent(),
        resent: sender.resent(),
        whole: false,
    }
}

/// What a receiver counts.
fn of_receiver(receiver: &Receiver) -> Counts
    ensures { IsCountOfReceiver receiver.now result }
{
    Counts {
        rows: receiver.rows(),
        packets: 0,
        resent: 0,
        whole: receiver.is_whole(),
    }
}

impl Query {
    /// What the sender at this place counts.
    fn sent(&self, place: usize) -> Counts
        requires here { place < length self.now.senders }
        ensures { (sender : TimedState) → slice_get self.now.senders place ≡ Some sender → IsCountOfSender sender result }
    {
        of_sender(&self.senders[place])
    }

    /// What the receiver at this place counts.
    fn taken(&self, place: usize) -> Counts
        requires here { place < length self.now.receivers }
        ensures { (receiver : Receiving) → slice_get self.now.receivers place ≡ Some receiver → IsCountOfReceiver receiver result }
    {
        of_receiver(&self.receivers[place])
    }
}

impl Hub {
    /// What the sender of this key counts, if one is there.
    fn count_sent(&self, key: &ConnKey) -> Option<Counts>
        ensures { CountsFound true self.now key.now result }
    {
        let (query, place) = self.sender_of(key)?;
        Some(self.live[query].sent(place))
    }

    /// What the receiver of this key counts, if one is there.
    fn count_taken(&self, key: &ConnKey) -> Option<Counts>
        ensures { CountsFound false self.now key.now result }
    {
        let (query, place) = self.receiver_of(key)?;
        Some(self.live[query].taken(place))
    }

    /// What one end of a connection counts. `None` exactly if no live query has the connection here with that side.
    /// Looks the connection up once.
    pub fn counts(&self, key: &ConnKey, sending: bool) -> Option<Counts>
        ensures found { CountsFound sending self.now key.now result }
        ensures tells { (h : List Entry) → Stands self.now h → TellsCounts sending key.now h result }
    {
        let _table = &self.table;
        if sending {
            self.count_sent(key)
        } else {
            self.count_taken(key)
        }
    }
}
