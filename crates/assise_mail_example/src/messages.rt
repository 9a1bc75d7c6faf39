//! Which messages are delivered, where they stand, and what they say.

use assise_mail::fault::MailFault;
use assise_names::byte_string::ByteString;
use assise_names::path::Path;
use assise_names::refusal::Refusal;
use std::alloc::Global;
use std::fmt;
use std::fmt::{Display, Formatter};

/// How many threads deliver.
pub const WRITERS: u32 = 3;

/// How many messages each delivers.
pub const MESSAGES: u32 = 20;

/// A message: whose it is, and its number, both from 1 on. Its text is the name that it has in the mailbox.
#[derive(Clone, Copy)]
pub struct Message {
    pub writer: u32,
    pub number: u32,
}

impl Display for Message {
    fn fmt<W: fmt::Write>(&self, f: &mut Formatter<W>) -> fmt::Result {
        write!(f, "{}-{}", self.writer, self.number)
    }
}

/// The path that a text spells.
pub fn path(alloc: Global, text: &str) -> Result<Path, MailFault> {
    Path::parse(alloc, text).map_err(|_| MailFault::Refused(Refusal::OutOfMemory))
}

/// The directory that messages are delivered to.
pub fn mailbox(alloc: Global) -> Result<Path, MailFault> {
    path(alloc, "/box")
}

/// The directory that messages are written in.
pub fn drafts(alloc: Global) -> Result<Path, MailFault> {
    path(alloc, "/drafts")
}

/// Where a message of this name stands in the mailbox.
pub fn place(alloc: Global, name: &str) -> Result<Path, MailFault> {
    let text = format!(in alloc; "/box/{name}")?;
    path(alloc, text.as_str())
}

/// Where a message of this name is written, the first time or a later one: no draft is written twice.
pub fn draft(alloc: Global, name: &str, time: u32) -> Result<Path, MailFault> {
    let text = format!(in alloc; "/drafts/{name}.{time}")?;
    path(alloc, text.as_str())
}

/// What a message of this name says.
pub fn text(alloc: Global, name: &str) -> Result<ByteString, MailFault> {
    let text = format!(in alloc; "This is message {name}.")?;
    let mut bytes = Vec::new(alloc);
    bytes.extend_from_slice(text.as_str().as_bytes())?;
    Ok(ByteString::from_vec(bytes)?)
}
