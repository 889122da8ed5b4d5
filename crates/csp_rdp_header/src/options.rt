//! The options of a connection.

ghost use Rattle.std.specs.Prelude.{◌≡◌, ◌+◌, ◌≤◌, length, IfOk, ℕ, List};
ghost use Rattle.csp_rdp_header.specs.Options.{checked, judged, number_at, option_bytes, usual_options};

use crate::OptionError;

/// The widest window, in packets.
pub const MAX_WINDOW: u32 = 20;

/// The number of bytes of the options: six numbers of 32 bits.
pub const OPTIONS_LEN: usize = 24;

/// What the client of a connection states in its first packet, and the server takes over. Times are in
/// rounds.
#[derive(Clone, Copy, Debug)]
pub struct Options {
    /// How many packets may be unacknowledged, 1 to `MAX_WINDOW`.
    pub window: u32,
    /// After so long without progress the connection is given up, at least 1.
    pub conn_timeout: u32,
    /// After so long a packet that is not acknowledged is sent again, at least 1.
    pub packet_timeout: u32,
    /// Whether acknowledgements of delivered packets may wait: 0 is no, every other number is yes.
    pub delayed: u32,
    /// For how long they may wait.
    pub ack_timeout: u32,
    /// For how many delivered packets they may wait.
    pub ack_count: u32,
}

impl Options {
    /// The options of a connection where nothing else is said.
    pub fn usual() -> Options
        ensures { result ≡ usual_options }
    {
        Options {
            window: 4,
            conn_timeout: 10_000,
            packet_timeout: 1_000,
            delayed: 1,
            ack_timeout: 250,
            ack_count: 2,
        }
    }

    /// The options that these bytes are, where each is in its range.
    pub fn decode(bytes: &[u8]) -> Result<Options, OptionError>
        ensures value { result ≡ judged bytes.now }
        ensures whole { IfOk result (λ options. bytes.now ≡ option_bytes options) }
    {
        if bytes.len() != OPTIONS_LEN {
            return Err(OptionError::BadLength);
        }
        Options {
            window: read_number(bytes, 0),
            conn_timeout: read_number(bytes, 4),
            packet_timeout: read_number(bytes, 8),
            delayed: read_number(bytes, 12),
            ack_timeout: read_number(bytes, 16),
            ack_count: read_number(bytes, 20),
        }
        .check()
    }

    /// The 24 bytes of the options: each number the most significant byte first.
    pub fn encode(self) -> [u8; 24]
        ensures value { result ≡ option_bytes self }

        // They are read as these options, where each is in its range.
        ensures back { judged result ≡ checked self }
    {
        let [w0, w1, w2, w3] = self.window.to_be_bytes();
        let [c0, c1, c2, c3] = self.conn_timeout.to_be_bytes();
        let [p0, p1, p2, p3] = self.packet_timeout.to_be_bytes();
        let [d0, d1, d2, d3] = self.delayed.to_be_bytes();
        let [t0, t1, t2, t3] = self.ack_timeout.to_be_bytes();
        let [n0, n1, n2, n3] = self.ack_count.to_be_bytes();
        [
            w0, w1, w2, w3, c0, c1, c2, c3, p0, p1, p2, p3, d0, d1, d2, d3, t0, t1, t2, t3, n0, n1,
            n2, n3,
        ]
    }

    // The options themselves, where each is in its range.
    fn check(self) -> Result<Options, OptionError>
        ensures { result ≡ checked self }
    {
        if self.window == 0 || self.window > MAX_WINDOW {
            Err(OptionError::BadOption(0))
        } else if self.conn_timeout == 0 {
            Err(OptionError::BadOption(1))
        } else if self.packet_timeout == 0 {
            Err(OptionError::BadOption(2))
        } else {
            Ok(self)
        }
    }
}

// The number of 32 bits that begins at this byte.
fn read_number(bytes: &[u8], at: usize) -> u32
    requires { at + 4 ≤ length bytes.now }
    ensures { result ≡ number_at bytes.now at }
{
    match bytes[at..].split_first_chunk::<4>() {
        Some((number, _)) => u32::from_be_bytes(*number),
        None => unreachable!(),
    }
}
