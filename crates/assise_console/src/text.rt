//! What answers look like.
ghost use Rattle.std.specs.Prelude.{◌++◌, Some, codes};
ghost use Rattle.std.specs.Fmt.{WritesOnOk, decimal};
ghost use Rattle.assise_console.specs.Lines.{answer_text, lost_text, numbered_line};

use crate::response::Response;
use assise_history::history::History;
use std::fmt;
use std::fmt::{Display, Formatter};

/// The text of an answer, where the history so far is this.
#[derive(Drop)]
pub(crate) struct AnswerText<'a> {
    pub(crate) history: &'a History,
    pub(crate) answer: &'a Response,
}

impl Display for AnswerText<'_> {
    ghost output = { λ a. Some (answer_text a.history.now.events a.answer.now) };

    fn fmt<W: fmt::Write>(&self, f: &mut Formatter<W>) -> fmt::Result {
        match self.answer {
            Response::Quiet => Ok(()),
            Response::Client(client) => write_number(f, "client", u64::from(*client)),
            Response::Replied(reply) => reply.fmt(f),
            Response::Waits => f.write_str("wait"),
            Response::Refused(refusal) => refusal.fmt(f),
            Response::Carried(frames) => write_number(f, "carried", *frames),
            Response::Digested(records) => write_number(f, "digested", *records as u64),
            Response::Released(leases) => write_number(f, "released", *leases as u64),
            Response::Linked(node) => write_number(f, "linked", u64::from(*node)),
            Response::HotSet(node) => write_number(f, "hot", u64::from(*node)),
            Response::Crashed(client) => write_number(f, "crashed", u64::from(*client)),
            Response::Failed(node, losses) => {
                let losses = Losses(losses.as_slice());
                write!(f, "failed {node}{losses}")
            }
            Response::Began(node, stale) => write!(f, "back {node} stale {stale}"),
            Response::Left(stale) => write_number(f, "left", *stale as u64),
            Response::Returned(node) => write_number(f, "returned", u64::from(*node)),
            Response::Raised(node) => write_number(f, "raised", u64::from(*node)),
            Response::Tree(tree) => tree.fmt(f),
            Response::History => self.history.fmt(f),
            Response::Checked(true) => f.write_str("legal"),
            Response::Checked(false) => f.write_str("illegal"),
        }
    }
}

/// The line of an answer with its number, where the history so far is this.
#[derive(Drop)]
pub(crate) struct AnswerLine<'a> {
    pub(crate) number: u64,
    pub(crate) text: AnswerText<'a>,
}

impl Display for AnswerLine<'_> {
    ghost output = { λ l. Some (numbered_line l.number
        (answer_text l.text.history.now.events l.text.answer.now)) };

    fn fmt<W: fmt::Write>(&self, f: &mut Formatter<W>) -> fmt::Result {
        self.number.fmt(f)?;
        f.write_str(": ")?;
        self.text.fmt(f)?;
        f.write_str("\n")
    }
}

/// Writes a word and a number.
fn write_number<W: fmt::Write>(f: &mut Formatter<W>, word: &str, number: u64) -> fmt::Result
    ensures { WritesOnOk W.write_str_gives f.old result
        (word.now ++ codes " " ++ decimal number) f.new }
{
    write!(f, "{word} {number}")
}

/// A space before each client with the number of its first lost call.
#[derive(Drop)]
struct Losses<'a>(&'a [(u32, u64)]);

impl Display for Losses<'_> {
    ghost output = { λ losses. Some (lost_text losses.0.now) };

    fn fmt<W: fmt::Write>(&self, f: &mut Formatter<W>) -> fmt::Result {
        for loss in self.0 {
            let client = loss.0;
            let first = loss.1;
            write!(f, " {client}:{first}")?;
        }
        Ok(())
    }
}
