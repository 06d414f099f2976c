//! The bytes of the Network Block Device protocol (`doc/proto.md` of the NBD project): the fixed newstyle handshake,
//! requests and simple replies. Numbers are big endian. Nothing here allocates.
//!
//! ```text
//! let request = Request::decode(&head)?;                       // 28 bytes, without the data of a WRITE
//! let reply = simple_reply(ErrorCode::Success, request.cookie); // 16 bytes, without the data of a READ
//! ```
//!
//! # What is promised
//!
//! * A request, the head of an option and the client's flags have one encoding each. No other bytes are read as one.
//! * Every reply has the bytes that the protocol says (`specs/Handshake.antt`, `specs/Transmission.antt`).
//!
//! Tests: the rows of `nbd_rows`.
#![tactic(auto)]

mod client_flags;
mod command;
mod error_code;
mod export;
mod number;
mod option_head;
mod option_kind;
mod option_reply;
mod reply;
mod reply_kind;
mod request;

pub use client_flags::ClientFlags;
pub use command::Command;
pub use error_code::ErrorCode;
pub use export::{Export, GREETING};
pub use option_head::OptionHead;
pub use option_kind::OptionKind;
pub use option_reply::{list_reply, short_reply};
pub use reply::simple_reply;
pub use reply_kind::ReplyKind;
pub use request::Request;
