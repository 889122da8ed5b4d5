//! What a packet says that asks for a reliable connection.

ghost use Rattle.std.specs.Prelude.{◌≡◌, ◌≤◌, ◌||◌, IfOk};
ghost use Rattle.csp_rdp_header.specs.Head.{has_flag};
ghost use Rattle.csp_stack.specs.Rules.{syn_alone, invitation_of};

use csp_base::Tag;
use csp_buffer::Buffer;
use csp_deck::Discard;
use csp_ports::Invitation;
use csp_rdp_header::{ACK, MAX_WINDOW, Options, RST, RdpHead, SYN};

/// What a packet asks for, or why it asks for no connection.
///
/// # Errors
/// The reason for which the packet is to be discarded.
pub fn read_invitation(buffer: &Buffer) -> Result<Invitation, Discard>
    ensures value { result ≡ invitation_of buffer.now.picture }
    ensures low { IfOk result (λ i. 1 ≤ i.options.window) }
    ensures high { IfOk result (λ i. i.options.window ≤ MAX_WINDOW) }
{
    match RdpHead::decode(buffer.payload()) {
        Ok((options, head)) => read_options(options, head, buffer.trace().tag),
        Err(_) => Err(Discard::Malformed),
    }
}

/// What the packet with this head and these options asks for.
fn read_options(bytes: &[u8], head: RdpHead, tag: Option<Tag>) -> Result<Invitation, Discard>
    ensures value { result ≡ syn_alone (has_flag head SYN) (has_flag head ACK || has_flag head RST) bytes.now head tag }
    ensures low { IfOk result (λ i. 1 ≤ i.options.window) }
    ensures high { IfOk result (λ i. i.options.window ≤ MAX_WINDOW) }
{
    if !head.has(SYN) || head.has(ACK) || head.has(RST) {
        return Err(Discard::NoConn);
    }
    match Options::decode(bytes) {
        Ok(options) => Ok(Invitation { head, tag, options }),
        Err(_) => Err(Discard::Malformed),
    }
}
