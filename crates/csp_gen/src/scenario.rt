//! The text of a generated scenario.

ghost use Rattle.std.specs.Prelude.{◌≡◌, ◌≤◌, ◌++◌, length, OnOk, IfOk};
ghost use Rattle.std.specs.String.{string_bytes};
ghost use Rattle.csp_gen.specs.Lines.{text_of};
ghost use Rattle.csp_gen.specs.GenScene.{StatesScene};
ghost use Rattle.csp_gen.specs.GenText.{network_lines, sender_lines, taker_lines, scenario_lines, gen_text};

use crate::faults::push_faults;
use crate::lines::push_line_with;
use std::alloc::{AllocError, Global};

/// The most packets that a generated scenario sends.
pub const MAX_PACKETS: u32 = 500;

/// No generated scenario has more bytes.
pub const MAX_TEXT: usize = 32_768;

/// The network: how many rounds it may run, its nodes, its links and its routes.
const NETWORK: &str = "until 40000\n\
    node ground 1 buffers 32 seed 65400\n\
    node relay 2 buffers 32\n\
    node payload 3 buffers 32\n\
    link radio kiss ground relay\n\
    link bus can relay payload\n\
    route ground 0/0 radio\n\
    route relay 1 radio, 3 bus\n\
    route payload 0/0 bus\n";

/// Appends the lines of the network.
fn push_network(out: &mut String) -> Result<(), AllocError>
    ensures { OnOk result (string_bytes out.new ≡ string_bytes out.old ++ text_of network_lines) }
{
    out.push_str(NETWORK)
}

/// Appends the lines of the application that sends.
fn push_sender(out: &mut String, packets: u32) -> Result<(), AllocError>
    ensures { OnOk result (string_bytes out.new ≡ string_bytes out.old ++ text_of (sender_lines packets)) }
{
    out.push_str("app ground ops\nconnect 0 3 10 crc rdp\n")?;
    push_line_with(out, "burst 0 ", packets, " 100")?;
    Ok(())
}

/// Appends the lines of the application that takes.
fn push_taker(out: &mut String, packets: u32) -> Result<(), AllocError>
    ensures { OnOk result (string_bytes out.new ≡ string_bytes out.old ++ text_of (taker_lines packets)) }
{
    out.push_str("app payload cam\nbind 10 rdp\n")?;
    push_line_with(out, "recv 0 ", packets, "")?;
    Ok(())
}

/// Appends all lines.
fn push_lines(out: &mut String, packets: u32) -> Result<(), AllocError>
    requires { packets ≤ MAX_PACKETS }
    ensures { OnOk result (string_bytes out.new ≡ string_bytes out.old ++ text_of (scenario_lines packets)) }
{
    push_network(out)?;
    push_faults(out, packets)?;
    push_sender(out, packets)?;
    push_taker(out, packets)?;
    Ok(())
}

#[tactic(auto, using(crate::proofs::Joining::gen_text_is, crate::proofs::Length::text_short, crate::proofs::Stating::text_states))]
/// The text of the scenario in which so many packets, 1 to `MAX_PACKETS`, are sent: ASCII lines, each with the
/// line feed that ends it. Want of memory is the only refusal.
pub fn text(alloc: Global, packets: u32) -> Result<Vec<u8>, AllocError>
    requires least { 1 ≤ packets }
    requires most { packets ≤ MAX_PACKETS }
    ensures text { IfOk result (λ bytes. bytes.items ≡ gen_text packets) }
    ensures short { length (gen_text packets) ≤ MAX_TEXT }
    ensures stated { StatesScene packets }
{
    let mut out = String::new(alloc);
    push_lines(&mut out, packets)?;
    Ok(out.into_bytes())
}
