//! What a router counts of its interfaces.

ghost use Rattle.std.specs.Prelude.{◌≡◌, ◌<◌, ◌^◌};
ghost use Rattle.csp_stack.specs.Counting.{came_in, counting, was_full, went_out};

use crate::state::State;
use csp_buffer::Buffer;
use csp_deck::QueueId;
use csp_service::Count;

/// Counts so many more of the interface with this number. An unmarked packet has none.
pub fn count(state: &mut State, iface: u8, count: Count, by: u32)
    ensures { state.new ≡ record state.old { state = counting state.old.state iface count by } }
{
    state.services.count(iface, count, by);
}

/// Counts a packet that came from the inbox.
pub fn count_in(state: &mut State, mark: u8, buffer: &Buffer)
    ensures { state.new ≡ record state.old { state = came_in state.old.state mark buffer.now.picture } }
{
    count(state, mark, Count::Received, 1);
    count(
        state,
        mark,
        Count::ReceivedBytes,
        buffer.payload().len() as u32,
    );
}

/// Counts a packet with so many bytes of payload that was pushed to a queue.
pub fn count_out(state: &mut State, queue: QueueId, bytes: u32)
    ensures { state.new ≡ record state.old { state = went_out state.old.state queue bytes } }
{
    match queue {
        QueueId::Out(iface) => {
            count(state, iface, Count::Sent, 1);
            count(state, iface, Count::SentBytes, bytes);
        }
        QueueId::Inbox | QueueId::Up(_) | QueueId::Down(_) => {}
        QueueId::Tx(_) | QueueId::Rx(_) => {}
    }
}

/// Counts a queue that was full.
pub fn count_full(state: &mut State, queue: QueueId)
    ensures { state.new ≡ record state.old { state = was_full state.old.state queue } }
{
    match queue {
        QueueId::Out(iface) => count(state, iface, Count::SendErrors, 1),
        QueueId::Inbox | QueueId::Up(_) | QueueId::Down(_) => {}
        QueueId::Tx(_) | QueueId::Rx(_) => {}
    }
}
