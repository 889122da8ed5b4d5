//! The codes of requests.

ghost use Rattle.std.specs.Prelude.{◌≡◌, Some, IfSome};
ghost use Rattle.csp_cmp.specs.Codes.{code_number, code_of};

/// What a request asks for. Its reply has the same code.
#[derive(Clone, Copy)]
pub enum Code {
    /// Who the node is.
    Ident,
    /// A new row of its routing table.
    RouteSet,
    /// What one of its interfaces counted.
    Stats,
    /// To read its memory.
    Peek,
    /// To write its memory.
    Poke,
    /// To read its clock, or to set it.
    Clock,
}

impl Code {
    /// The code with this number, where it is 1 to 6.
    pub fn of(number: u8) -> Option<Code>
        ensures value { result ≡ code_of number }
        ensures back { IfSome result (λ code. code_number code ≡ number) }
    {
        match number {
            1 => Some(Code::Ident),
            2 => Some(Code::RouteSet),
            3 => Some(Code::Stats),
            4 => Some(Code::Peek),
            5 => Some(Code::Poke),
            6 => Some(Code::Clock),
            _ => None,
        }
    }

    /// Its number, 1 to 6.
    pub fn number(self) -> u8
        ensures value { result ≡ code_number self }
        ensures back { code_of result ≡ Some self }
    {
        match self {
            Code::Ident => 1,
            Code::RouteSet => 2,
            Code::Stats => 3,
            Code::Peek => 4,
            Code::Poke => 5,
            Code::Clock => 6,
        }
    }
}
