// Reading a description, line by line; the first bad line decides.
ghost use Rattle.std.specs.Prelude.{◌≡◌, ◌≤◌, ◌<◌, length, IfOk, IfErr};
ghost use Rattle.basics.specs.Refusals.{reply_by, number_of, Numbered};
ghost use Rattle.description_lines.specs.Descriptions.{described};
ghost use Rattle.description_reader.specs.Declarations.{declared_of, declarations};
ghost use Rattle.description_reader.specs.Internal.{taken_by, Ended, Declares};

use crate::codes::Codes;
use crate::declarations::Declarations;
use crate::states::{Line, ReaderState};
use basics::{Reason, Refusal};
use text::{lines, lists};
use text_forms::Name;

// Where a description ends: the reader's state, the place behind the end line, and the end line's number.
#[derive(Clone, Copy)]
pub(crate) struct Ending {
    pub state: ReaderState,
    pub at: usize,
    pub line: usize,
}

// A refusal at a line, counted from 1, or at no line.
fn refused(reason: Reason, line: usize) -> Refusal
    ensures { result ≡ record { reason = reason; place = line } }
{
    Refusal {
        reason,
        place: line,
    }
}

// Reads line by line to the end line or to the first bad line; laws are counted up to those lent.
fn read_lines(text: &[u8], lent: usize) -> Result<Ending, Refusal>
    requires { length text.now ≤ 65535 }
    ensures answers { reply_by (taken_by text.now) result ≡ described lent text.now }
    ensures ended { IfOk result (λ e. Ended lent text.now e) }
    ensures numbered { Numbered result }
{
    let mut state = ReaderState::begun(lent);
    let mut at: usize = 0;
    let mut line: usize = 0;
    'lines: loop {
        let Some(due) = state.due else {
            break 'lines Ok(Ending { state, at, line });
        };
        line += 1;
        let l = lines::line_at(text, at);
        let Some(key) = l.key else {
            break 'lines Err(refused(Reason::WrongLine, line));
        };
        let list = &text[l.from..l.to];
        let high = state.sort_end(key);
        let mut gathered = Codes::none();
        let mut i = due.first_item(key, list, state.has_room());
        while i <= list.len() {
            let item = lists::next_item(list, i, text, &state.names, 0, high);
            match gathered.push(item.code) {
                Ok(()) => i = item.next,
                Err(reason) => break 'lines Err(refused(reason, line)),
            }
        }
        let place = Name {
            start: l.from,
            length: list.len(),
        };
        match state.line_step(&Line { text, key, place }, gathered) {
            Ok(()) => at = l.next,
            Err(reason) => break 'lines Err(refused(reason, line)),
        }
    }
}

// Reads a description of at most 65,535 bytes.
pub(crate) fn read(text: &[u8], lent: usize) -> Result<Ending, Refusal>
    ensures answers { reply_by (taken_by text.now) result ≡ described lent text.now }
    ensures ended { IfOk result (λ e. Ended lent text.now e) }
    ensures numbered { Numbered result }
{
    if 65535 < text.len() {
        return Err(refused(Reason::LongText, 0));
    }
    read_lines(text, lent)
}

// Reads a description where no law run counts, for its names.
pub fn read_alone(text: &[u8]) -> Result<Declarations, Refusal>
    ensures answers { reply_by declared_of result ≡ declarations text.now (described 64 text.now) }
    ensures bounded { IfOk result (λ r. Declares text.now r) }
    ensures numbered { Numbered result }
    ensures number { IfErr result (λ refusal. 0 < number_of refusal.reason) }
{
    let end = read(text, 64)?;
    Ok(Declarations {
        lines: end.line,
        horizon: end.state.horizon,
        fluents: end.state.fluents,
        names: end.state.names,
    })
}
