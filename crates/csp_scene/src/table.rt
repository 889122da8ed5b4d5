//! The line forms of the scenario language, a row each.

ghost use Rattle.std.specs.Prelude.{◌≡◌, ◌++◌, List, IfOk, OnOk, map};
ghost use Rattle.csp_scene.specs.Table.{first_word, keyword_text, is_step, is_fault, is_hub_fault, suits, fixed_of, optional_of, group_of, with_options};

use crate::limits::{
    LAST_FRAME, MAX_ADDR, MAX_COPIES, MAX_COUNT, MAX_DELAY, MAX_DEST, MAX_FLIP, MAX_INBOX, MAX_MTU,
    MAX_OPTION, MAX_PORT, MAX_PRIO, MAX_RAW, MAX_ROUNDS, MAX_SEED, MAX_SEND, MAX_SHUFFLE, MAX_SLOT,
    MAX_UNTIL, MIN_BUFFERS, MIN_INBOX, MIN_MTU,
};
use csp_base::{FIRST_OWN_PORT, MAX_BUFFERS};
use csp_rdp_header::MAX_WINDOW;
use csp_sfp::{MAX_BLOB, MAX_SIZE};
use std::alloc::{AllocError, Global};

/// A line form.
#[derive(Clone, Copy)]
pub(crate) enum Form {
    /// `until N`
    Until,
    /// `schedule rounds`
    Rounds,
    /// `schedule shuffle S`
    Shuffle,
    /// `schedule steps WORD..`
    Moves,
    /// `node NAME ADDR buffers N [seed S] [inbox C]`
    Node,
    /// `bridge NAME buffers N [inbox C]`
    Bridge,
    /// `rdp NODE W CT PT DA AT AC`
    Rdp,
    /// `link NAME kiss NODE NODE [header] [mtu M]`
    KissLink,
    /// `link NAME can NODE NODE [mtu M]`
    CanLink,
    /// `hub NAME NODE NODE ..`
    Hub,
    /// `route NODE TEXT`
    Route,
    /// `fault LINK ab FRAME lose`; here and in the next three `ba` may stand for `ab`
    Lose,
    /// `fault LINK ab FRAME repeat K`
    Repeat,
    /// `fault LINK ab FRAME delay R`
    Delay,
    /// `fault LINK ab FRAME flip B`
    Flip,
    /// `fault HUB NODE FRAME lose`
    HubLose,
    /// `fault HUB NODE FRAME repeat K`
    HubRepeat,
    /// `fault HUB NODE FRAME delay R`
    HubDelay,
    /// `fault HUB NODE FRAME flip B`
    HubFlip,
    /// `app NODE NAME`
    App,
    /// `take`
    Take,
    /// `give`
    Give,
    /// `bind PORT [crc] [rdp]`
    Bind,
    /// `connect SLOT ADDR PORT [prio P] [crc] [rdp] [frag] [from Q]`
    Connect,
    /// `send SLOT HEX`
    Send,
    /// `burst SLOT COUNT LEN`
    Burst,
    /// `blob SLOT LEN SIZE`
    Blob,
    /// `raw HEADER HEX`
    Raw,
    /// `recv SLOT COUNT [for R]`
    Recv,
    /// `collect SLOT COUNT [for R]`
    Collect,
    /// `close SLOT`
    Close,
    /// `wait R`
    Wait,
}

/// A fixed word that stands after the first.
#[derive(Clone, Copy)]
pub(crate) enum Keyword {
    /// `buffers`
    Buffers,
    /// `seed`
    Seed,
    /// `inbox`
    Inbox,
    /// `for`
    For,
    /// `rounds`
    Rounds,
    /// `shuffle`
    Shuffle,
    /// `steps`
    Steps,
    /// `kiss`
    Kiss,
    /// `can`
    Can,
    /// `header`
    Header,
    /// `mtu`
    Mtu,
    /// `ab`
    Ab,
    /// `ba`
    Ba,
    /// `lose`
    Lose,
    /// `repeat`
    Repeat,
    /// `delay`
    Delay,
    /// `flip`
    Flip,
    /// `prio`
    Prio,
    /// `crc`
    Crc,
    /// `rdp`
    Rdp,
    /// `frag`
    Frag,
    /// `from`
    From,
}

/// What stands in one place of a line.
#[derive(Clone, Copy)]
pub(crate) enum Part {
    /// This word itself.
    Fixed(Keyword),
    /// One of these two words.
    Either(Keyword, Keyword),
    /// A name.
    Name,
    /// A decimal number, `low` to `high`.
    Number { low: u32, high: u32 },
    /// A 32-bit word of eight hexadecimal digits.
    Word,
    /// Bytes as hexadecimal digits, `least` to `most` of them; no bytes are written `-`.
    Bytes { least: u32, most: u32 },
    /// Step words of a schedule, one or more, to the line's end.
    Moves,
    /// The text of a routing table, one word or more, to the line's end.
    Text,
    /// Names of the nodes of a hub, one or more, to the line's end.
    Nodes,
}

/// Words at a line's end that may be left out together.
#[derive(Clone, Copy)]
pub(crate) enum Group {
    /// This word.
    Flag(Keyword),
    /// This word, and then a number from `low` to `high`.
    Setting {
        keyword: Keyword,
        low: u32,
        high: u32,
    },
}

/// The line forms, in the order of the table.
pub(crate) static FORMS: [Form; 32] = [
    Form::Until,
    Form::Rounds,
    Form::Shuffle,
    Form::Moves,
    Form::Node,
    Form::Bridge,
    Form::Rdp,
    Form::KissLink,
    Form::CanLink,
    Form::Hub,
    Form::Route,
    Form::Lose,
    Form::Repeat,
    Form::Delay,
    Form::Flip,
    Form::HubLose,
    Form::HubRepeat,
    Form::HubDelay,
    Form::HubFlip,
    Form::App,
    Form::Take,
    Form::Give,
    Form::Bind,
    Form::Connect,
    Form::Send,
    Form::Burst,
    Form::Blob,
    Form::Raw,
    Form::Recv,
    Form::Collect,
    Form::Close,
    Form::Wait,
];

static UNTIL: [Part; 1] = [Part::Number {
    low: 1,
    high: MAX_UNTIL,
}];

static ROUNDS: [Part; 1] = [Part::Fixed(Keyword::Rounds)];

static SHUFFLE: [Part; 2] = [
    Part::Fixed(Keyword::Shuffle),
    Part::Number {
        low: 0,
        high: MAX_SHUFFLE,
    },
];

static MOVES: [Part; 2] = [Part::Fixed(Keyword::Steps), Part::Moves];

static NODE: [Part; 4] = [
    Part::Name,
    Part::Number {
        low: 0,
        high: MAX_ADDR,
    },
    Part::Fixed(Keyword::Buffers),
    Part::Number {
        low: MIN_BUFFERS as u32,
        high: MAX_BUFFERS as u32,
    },
];

static NODE_OPTIONS: [Group; 2] = [
    Group::Setting {
        keyword: Keyword::Seed,
        low: 0,
        high: MAX_SEED,
    },
    Group::Setting {
        keyword: Keyword::Inbox,
        low: MIN_INBOX,
        high: MAX_INBOX,
    },
];

static BRIDGE: [Part; 3] = [
    Part::Name,
    Part::Fixed(Keyword::Buffers),
    Part::Number {
        low: MIN_BUFFERS as u32,
        high: MAX_BUFFERS as u32,
    },
];

static BRIDGE_OPTIONS: [Group; 1] = [Group::Setting {
    keyword: Keyword::Inbox,
    low: MIN_INBOX,
    high: MAX_INBOX,
}];

static RDP: [Part; 7] = [
    Part::Name,
    Part::Number {
        low: 1,
        high: MAX_WINDOW,
    },
    Part::Number {
        low: 1,
        high: MAX_OPTION,
    },
    Part::Number {
        low: 1,
        high: MAX_OPTION,
    },
    Part::Number {
        low: 0,
        high: MAX_OPTION,
    },
    Part::Number {
        low: 0,
        high: MAX_OPTION,
    },
    Part::Number {
        low: 0,
        high: MAX_OPTION,
    },
];

static KISS_LINK: [Part; 4] = [
    Part::Name,
    Part::Fixed(Keyword::Kiss),
    Part::Name,
    Part::Name,
];

static KISS_LINK_OPTIONS: [Group; 2] = [
    Group::Flag(Keyword::Header),
    Group::Setting {
        keyword: Keyword::Mtu,
        low: MIN_MTU,
        high: MAX_MTU,
    },
];

static CAN_LINK: [Part; 4] = [
    Part::Name,
    Part::Fixed(Keyword::Can),
    Part::Name,
    Part::Name,
];

static CAN_LINK_OPTIONS: [Group; 1] = [Group::Setting {
    keyword: Keyword::Mtu,
    low: MIN_MTU,
    high: MAX_MTU,
}];

static HUB: [Part; 3] = [Part::Name, Part::Name, Part::Nodes];

static ROUTE: [Part; 2] = [Part::Name, Part::Text];

static LOSE: [Part; 4] = [
    Part::Name,
    Part::Either(Keyword::Ab, Keyword::Ba),
    Part::Number {
        low: 1,
        high: LAST_FRAME,
    },
    Part::Fixed(Keyword::Lose),
];

static REPEAT: [Part; 5] = [
    Part::Name,
    Part::Either(Keyword::Ab, Keyword::Ba),
    Part::Number {
        low: 1,
        high: LAST_FRAME,
    },
    Part::Fixed(Keyword::Repeat),
    Part::Number {
        low: 1,
        high: MAX_COPIES,
    },
];

static DELAY: [Part; 5] = [
    Part::Name,
    Part::Either(Keyword::Ab, Keyword::Ba),
    Part::Number {
        low: 1,
        high: LAST_FRAME,
    },
    Part::Fixed(Keyword::Delay),
    Part::Number {
        low: 1,
        high: MAX_DELAY,
    },
];

static FLIP: [Part; 5] = [
    Part::Name,
    Part::Either(Keyword::Ab, Keyword::Ba),
    Part::Number {
        low: 1,
        high: LAST_FRAME,
    },
    Part::Fixed(Keyword::Flip),
    Part::Number {
        low: 0,
        high: MAX_FLIP,
    },
];

static HUB_LOSE: [Part; 4] = [
    Part::Name,
    Part::Name,
    Part::Number {
        low: 1,
        high: LAST_FRAME,
    },
    Part::Fixed(Keyword::Lose),
];

static HUB_REPEAT: [Part; 5] = [
    Part::Name,
    Part::Name,
    Part::Number {
        low: 1,
        high: LAST_FRAME,
    },
    Part::Fixed(Keyword::Repeat),
    Part::Number {
        low: 1,
        high: MAX_COPIES,
    },
];

static HUB_DELAY: [Part; 5] = [
    Part::Name,
    Part::Name,
    Part::Number {
        low: 1,
        high: LAST_FRAME,
    },
    Part::Fixed(Keyword::Delay),
    Part::Number {
        low: 1,
        high: MAX_DELAY,
    },
];

static HUB_FLIP: [Part; 5] = [
    Part::Name,
    Part::Name,
    Part::Number {
        low: 1,
        high: LAST_FRAME,
    },
    Part::Fixed(Keyword::Flip),
    Part::Number {
        low: 0,
        high: MAX_FLIP,
    },
];

static APP: [Part; 2] = [Part::Name, Part::Name];

static BIND: [Part; 1] = [Part::Number {
    low: 0,
    high: MAX_PORT,
}];

static BIND_OPTIONS: [Group; 2] = [Group::Flag(Keyword::Crc), Group::Flag(Keyword::Rdp)];

static CONNECT: [Part; 3] = [
    Part::Number {
        low: 0,
        high: MAX_SLOT,
    },
    Part::Number {
        low: 0,
        high: MAX_DEST,
    },
    Part::Number {
        low: 0,
        high: MAX_PORT,
    },
];

static CONNECT_OPTIONS: [Group; 5] = [
    Group::Setting {
        keyword: Keyword::Prio,
        low: 0,
        high: MAX_PRIO,
    },
    Group::Flag(Keyword::Crc),
    Group::Flag(Keyword::Rdp),
    Group::Flag(Keyword::Frag),
    Group::Setting {
        keyword: Keyword::From,
        low: FIRST_OWN_PORT as u32,
        high: MAX_PORT,
    },
];

static SEND: [Part; 2] = [
    Part::Number {
        low: 0,
        high: MAX_SLOT,
    },
    Part::Bytes {
        least: 1,
        most: MAX_SEND,
    },
];

static BURST: [Part; 3] = [
    Part::Number {
        low: 0,
        high: MAX_SLOT,
    },
    Part::Number {
        low: 1,
        high: MAX_COUNT,
    },
    Part::Number {
        low: 1,
        high: MAX_SEND,
    },
];

static BLOB: [Part; 3] = [
    Part::Number {
        low: 0,
        high: MAX_SLOT,
    },
    Part::Number {
        low: 1,
        high: MAX_BLOB as u32,
    },
    Part::Number {
        low: 1,
        high: MAX_SIZE as u32,
    },
];

static RAW: [Part; 2] = [
    Part::Word,
    Part::Bytes {
        least: 0,
        most: MAX_RAW,
    },
];

static RECV: [Part; 2] = [
    Part::Number {
        low: 0,
        high: MAX_SLOT,
    },
    Part::Number {
        low: 1,
        high: MAX_COUNT,
    },
];

static RECV_OPTIONS: [Group; 1] = [Group::Setting {
    keyword: Keyword::For,
    low: 1,
    high: MAX_ROUNDS,
}];

static COLLECT: [Part; 2] = [
    Part::Number {
        low: 0,
        high: MAX_SLOT,
    },
    Part::Number {
        low: 1,
        high: MAX_COUNT,
    },
];

static COLLECT_OPTIONS: [Group; 1] = [Group::Setting {
    keyword: Keyword::For,
    low: 1,
    high: MAX_ROUNDS,
}];

static CLOSE: [Part; 1] = [Part::Number {
    low: 0,
    high: MAX_SLOT,
}];

static WAIT: [Part; 1] = [Part::Number {
    low: 1,
    high: MAX_ROUNDS,
}];

impl Keyword {
    /// The word itself.
    pub(crate) fn text(self) -> &'static [u8]
        ensures { result.now ≡ keyword_text self }
    {
        match self {
            Keyword::Buffers => b"buffers",
            Keyword::Seed => b"seed",
            Keyword::Inbox => b"inbox",
            Keyword::For => b"for",
            Keyword::Rounds => b"rounds",
            Keyword::Shuffle => b"shuffle",
            Keyword::Steps => b"steps",
            Keyword::Kiss => b"kiss",
            Keyword::Can => b"can",
            Keyword::Header => b"header",
            Keyword::Mtu => b"mtu",
            Keyword::Ab => b"ab",
            Keyword::Ba => b"ba",
            Keyword::Lose => b"lose",
            Keyword::Repeat => b"repeat",
            Keyword::Delay => b"delay",
            Keyword::Flip => b"flip",
            Keyword::Prio => b"prio",
            Keyword::Crc => b"crc",
            Keyword::Rdp => b"rdp",
            Keyword::Frag => b"frag",
            Keyword::From => b"from",
        }
    }
}

impl Form {
    /// The first word of its lines.
    pub(crate) fn word(self) -> &'static [u8]
        ensures { result.now ≡ first_word self }
    {
        match self {
            Form::Until => b"until",
            Form::Rounds | Form::Shuffle | Form::Moves => b"schedule",
            Form::Node => b"node",
            Form::Bridge => b"bridge",
            Form::Rdp => b"rdp",
            Form::KissLink | Form::CanLink => b"link",
            Form::Hub => b"hub",
            Form::Route => b"route",
            Form::Lose
            | Form::Repeat
            | Form::Delay
            | Form::Flip
            | Form::HubLose
            | Form::HubRepeat
            | Form::HubDelay
            | Form::HubFlip => b"fault",
            Form::App => b"app",
            Form::Take => b"take",
            Form::Give => b"give",
            Form::Bind => b"bind",
            Form::Connect => b"connect",
            Form::Send => b"send",
            Form::Burst => b"burst",
            Form::Blob => b"blob",
            Form::Raw => b"raw",
            Form::Recv => b"recv",
            Form::Collect => b"collect",
            Form::Close => b"close",
            Form::Wait => b"wait",
        }
    }

    /// Whether its lines are steps of the application that stands before them.
    pub(crate) fn is_step(self) -> bool
        ensures { result ≡ is_step self }
    {
        match self {
            Form::Take
            | Form::Give
            | Form::Bind
            | Form::Connect
            | Form::Send
            | Form::Burst
            | Form::Blob
            | Form::Raw
            | Form::Recv
            | Form::Collect
            | Form::Close
            | Form::Wait => true,
            _ => false,
        }
    }

    /// Whether its lines state a fault of a link of two ends.
    fn is_fault(self) -> bool
        ensures { result ≡ is_fault self }
    {
        match self {
            Form::Lose | Form::Repeat | Form::Delay | Form::Flip => true,
            _ => false,
        }
    }

    /// Whether its lines state a fault of a hub.
    fn is_hub_fault(self) -> bool
        ensures { result ≡ is_hub_fault self }
    {
        match self {
            Form::HubLose | Form::HubRepeat | Form::HubDelay | Form::HubFlip => true,
            _ => false,
        }
    }

    /// Whether a line may be of this form whose first argument is the name of a hub, or is not.
    pub(crate) fn suits(self, on_hub: bool) -> bool
        ensures { result ≡ suits on_hub self }
    {
        if on_hub {
            !self.is_fault()
        } else {
            !self.is_hub_fault()
        }
    }

    /// What stands after the first word in each of its lines.
    pub(crate) fn fixed(self) -> &'static [Part]
        ensures { result.now ≡ fixed_of self }
    {
        match self {
            Form::Until => &UNTIL,
            Form::Rounds => &ROUNDS,
            Form::Shuffle => &SHUFFLE,
            Form::Moves => &MOVES,
            Form::Node => &NODE,
            Form::Bridge => &BRIDGE,
            Form::Rdp => &RDP,
            Form::KissLink => &KISS_LINK,
            Form::CanLink => &CAN_LINK,
            Form::Hub => &HUB,
            Form::Route => &ROUTE,
            Form::Lose => &LOSE,
            Form::Repeat => &REPEAT,
            Form::Delay => &DELAY,
            Form::Flip => &FLIP,
            Form::HubLose => &HUB_LOSE,
            Form::HubRepeat => &HUB_REPEAT,
            Form::HubDelay => &HUB_DELAY,
            Form::HubFlip => &HUB_FLIP,
            Form::App => &APP,
            Form::Take | Form::Give => &[],
            Form::Bind => &BIND,
            Form::Connect => &CONNECT,
            Form::Send => &SEND,
            Form::Burst => &BURST,
            Form::Blob => &BLOB,
            Form::Raw => &RAW,
            Form::Recv => &RECV,
            Form::Collect => &COLLECT,
            Form::Close => &CLOSE,
            Form::Wait => &WAIT,
        }
    }

    /// What may follow, in this order, each there or not.
    pub(crate) fn optional(self) -> &'static [Group]
        ensures { result.now ≡ optional_of self }
    {
        match self {
            Form::Node => &NODE_OPTIONS,
            Form::Bridge => &BRIDGE_OPTIONS,
            Form::KissLink => &KISS_LINK_OPTIONS,
            Form::CanLink => &CAN_LINK_OPTIONS,
            Form::Bind => &BIND_OPTIONS,
            Form::Connect => &CONNECT_OPTIONS,
            Form::Recv => &RECV_OPTIONS,
            Form::Collect => &COLLECT_OPTIONS,
            _ => &[],
        }
    }
}

impl Group {
    /// A shape with these words after it.
    pub(crate) fn after(self, alloc: Global, shape: &[Part]) -> Result<Vec<Part>, AllocError>
        ensures { IfOk result (λ longer. longer.items ≡ shape.now ++ group_of self) }
    {
        let mut longer = Vec::from_slice(alloc, shape)?;
        match self {
            Group::Flag(keyword) => longer.push(Part::Fixed(keyword))?,
            Group::Setting { keyword, low, high } => {
                longer.push(Part::Fixed(keyword))?;
                longer.push(Part::Number { low, high })?;
            }
        }
        Ok(longer)
    }
}
