//! Why bytes are no request.

use thiserror::Error;

/// Why bytes are no request. Where several fit, the first of these is answered.
#[derive(Clone, Copy, Debug, Error)]
pub enum CmpError {
    /// They lack the type or the code.
    #[error("the request has no type or no code")]
    Short,
    /// They are of another type than a request.
    #[error("{0} is not the type of a request")]
    BadType(u8),
    /// No request has this code.
    #[error("no request has the code {0}")]
    BadCode(u8),
    /// So many bytes of memory are more than one request may ask for or bring.
    #[error("{0} bytes of memory are too many")]
    BadCount(u8),
    /// They are fewer than this request needs.
    #[error("the request needs {need} bytes")]
    BadLength { need: u32 },
}
