// Reading a description from text.
#![tactic(auto)]

mod codes;
pub mod declarations;
pub mod descriptions;
mod keys;
mod states;
mod steps;

ghost use Rattle.std.specs.Prelude.{◌≡◌, IfOk, length};
ghost use Rattle.basics.specs.Refusals.{Numbered};
ghost use Rattle.description_lines.specs.Descriptions.{described};
ghost use Rattle.description_lines.specs.Answers.{replied, record_of, laws_left};
ghost use Rattle.description_reader.specs.Answers.{reply_of};

use action_language::{Description, Law};
use basics::Refusal;

// A description that was read: behind how many bytes and lines it ends, and its record.
#[derive(Clone, Copy, Debug, PartialEq, Eq)]
pub struct Read {
    pub bytes: usize,
    pub lines: usize,
    pub description: Description,
}

// Reads a description's text. Laws are counted up to those lent, at most 64; on a refusal the laws stay as they were.
pub fn read_description(text: &[u8], laws: &mut [Law]) -> Result<Read, Refusal>
    ensures answers { reply_of result ≡ replied text.now (described (length laws.old) text.now) }
    ensures description { IfOk result (λ read. read.description ≡ record_of (described (length laws.old) text.now)) }
    ensures leaves { laws.new ≡ laws_left (described (length laws.old) text.now) laws.old }
    ensures numbered { Numbered result }
{
    let end = descriptions::read(text, laws.len())?;
    let state = &end.state;
    let count = state.count;
    laws[..count].copy_from_slice(&state.laws[..count]);
    Ok(Read {
        bytes: end.at,
        lines: end.line,
        description: Description {
            fluents: state.fluents,
            actions: state.names.count - state.fluents,
            laws: count,
            horizon: state.horizon,
        },
    })
}
